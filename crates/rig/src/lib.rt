// The call for C programs: it decides a packet on packed bytes.
//
// `kusucopper_decide` opens the bytes with the kind of verdicts, for one question, and allocates nothing. Its contract says which number
// comes back, for any bytes. Crate rig_c is the static library that C programs link. Rests on opening.
#![tactic(auto)]

ghost use Rattle.std.specs.Prelude.{◌≡◌, [], ◌∷◌};
ghost use Rattle.rig.specs.Calls.{answer};

use decision::Verdicts;
use opening::decide_packed;
use packet::Packet;

// The decision of the packet, or 100 plus the number of the refusal to open the bytes: one number, as C has it.
pub fn kusucopper_decide(
    bytes: &[u8],
    source: u32,
    source_port: u16,
    destination: u32,
    destination_port: u16,
    protocol: u8,
) -> u32
    ensures { result ≡ answer bytes.now (source ∷ source_port ∷ destination ∷ destination_port ∷ protocol ∷ []) }
{
    let packet = Packet {
        source,
        source_port,
        destination,
        destination_port,
        protocol,
    };
    match decide_packed::<Verdicts>(bytes, &packet) {
        Ok(decision) => u32::from(decision),
        Err(damage) => 100 + u32::from(damage.number()),
    }
}
