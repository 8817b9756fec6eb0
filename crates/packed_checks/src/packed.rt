// Cases on packed tables.
use blocks::{BLOCK_BYTES, BLOCK_ROWS};
use book::Book;
use damage::OpenRefusal;
use decision::Kind;
use opening::Table;
use pack::pack;
use packet::Packet;
use policy::Source;
use report::Unanswered;
use rig::kusucopper_decide;
use std::alloc::{AllocError, Global};
use text::read;

// The most bytes that a packed table has.
const MOST_BYTES: usize = 32_768;

// The packed blocks of a text's rules, given room for so many bytes.
pub(crate) fn packing<K: Kind>(
    heap: Global,
    text: &[u8],
    room: usize,
) -> Result<String, Unanswered> {
    let mut book = Book::<K>::open(heap)?;
    read(&mut book, text)?;
    packed_lines::<K, Book<K>>(heap, &book, room)
}

// The blocks of a source's table, given room for so many bytes.
fn packed_lines<K: Kind, S: Source<K>>(
    heap: Global,
    source: &S,
    room: usize,
) -> Result<String, Unanswered> {
    let mut bytes = vec![in heap; 0u8; room.min(MOST_BYTES + BLOCK_BYTES)]?;
    let rows = pack::<K, S>(heap, source, &mut bytes)?;
    let mut lines = format!(in heap; "packed {rows}\n")?;
    for block in bytes.chunks(BLOCK_BYTES).take(rows.div_ceil(BLOCK_ROWS)) {
        let digits = hex::encode(heap, block)?;
        // By `push_str`, for the error of `write!` would not say that memory ran out.
        lines.push_str(format!(in heap; "block {digits}\n")?.as_str())?;
    }
    Ok(lines)
}

// What is told of the table in packed bytes, or the damage of bytes that hold none.
fn of_table<K: Kind, F: FnOnce(&Table<K>) -> Result<String, Unanswered>>(
    heap: Global,
    bytes: &[u8],
    tell: F,
) -> Result<String, Unanswered>
    requires { F.IsAlwaysCallable tell }
{
    match Table::<K>::open(heap, bytes) {
        Ok(table) => tell(&table),
        Err(OpenRefusal::Damaged(damage)) => Ok(format!(in heap; "{damage}\n")?),
        Err(OpenRefusal::Memory) => Err(Unanswered::Memory),
    }
}

// How many rows packed bytes have.
pub(crate) fn opened<K: Kind>(heap: Global, bytes: &[u8]) -> Result<String, Unanswered> {
    of_table(heap, bytes, |table: &Table<K>| {
        let rows = table.row_count();
        Ok(format!(in heap; "opened {rows}\n")?)
    })
}

// What packed bytes decide of a packet.
pub(crate) fn decided<K: Kind>(
    heap: Global,
    bytes: &[u8],
    packet: Packet,
) -> Result<String, Unanswered> {
    of_table(heap, bytes, |table: &Table<K>| {
        let decision = Source::<K>::decide(table, &packet);
        Ok(format!(in heap; "decision {decision}\n")?)
    })
}

// The blocks into which the table in packed bytes is packed again.
pub(crate) fn repacked<K: Kind>(heap: Global, bytes: &[u8]) -> Result<String, Unanswered> {
    of_table(heap, bytes, |table: &Table<K>| {
        packed_lines::<K, Table<K>>(heap, table, MOST_BYTES)
    })
}

// What a call with no meaning answers: that its bytes are damaged comes first.
pub(crate) fn no_case<K: Kind>(heap: Global, bytes: &[u8]) -> Result<String, Unanswered> {
    of_table(heap, bytes, |_table: &Table<K>| {
        Ok(String::from_str(heap, "no such case\n")?)
    })
}

// What the call for C programs answers.
pub(crate) fn on_the_rig(heap: Global, bytes: &[u8], packet: Packet) -> Result<String, AllocError> {
    let answer = kusucopper_decide(
        bytes,
        packet.source,
        packet.source_port,
        packet.destination,
        packet.destination_port,
        packet.protocol,
    );
    format!(in heap; "answer {answer}\n")
}
