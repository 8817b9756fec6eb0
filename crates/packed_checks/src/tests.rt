// The worked examples of packing and opening.
use blocks::check_sum;
use book::Book;
use decision::Verdicts;
use opening::Table;
use pack::pack;
use policy::{Combined, Join};
use std::alloc::{AllocError, Global};
use std::test::Fail;
use text::read;

// The book of a text that reads well, or an empty one.
fn book(heap: Global, text: &str) -> Result<Book<Verdicts>, AllocError> {
    let mut book = Book::open(heap)?;
    let _ = read(&mut book, text.as_bytes());
    Ok(book)
}

#[test]
fn empty_book_is_one_row(rt: HostRuntime) -> Result<(), Fail> {
    let book = book(rt.alloc(), "")?;
    let mut bytes = vec![in rt.alloc(); 0u8; 512]?;
    assert_eq!(rt;
        pack::<Verdicts, Book<Verdicts>>(rt.alloc(), &book, &mut bytes),
        Ok(1)
    );
    assert_eq!(rt; check_sum(&bytes), 63_305);
    Ok(())
}

#[test]
fn adjoining_ports_pack_as_one_range(rt: HostRuntime) -> Result<(), Fail> {
    let two = book(rt.alloc(), "allow * * * 17-21 *\nallow * * * 22-80 *\n")?;
    let one = book(rt.alloc(), "allow * * * 17-80 *\n")?;
    let mut first = vec![in rt.alloc(); 0u8; 512]?;
    let mut second = vec![in rt.alloc(); 1u8; 512]?;
    assert_eq!(rt;
        pack::<Verdicts, Book<Verdicts>>(rt.alloc(), &two, &mut first),
        Ok(3)
    );
    assert_eq!(rt;
        pack::<Verdicts, Book<Verdicts>>(rt.alloc(), &one, &mut second),
        Ok(3)
    );
    assert!(rt; first == second);
    Ok(())
}

#[test]
fn overlapping_boxes_join_to_eleven_rows(rt: HostRuntime) -> Result<(), Fail> {
    let first = book(rt.alloc(), "allow * * 0.0.0.1-0.0.0.3 1-3 *\n")?;
    let second = book(rt.alloc(), "allow * * 0.0.0.2-0.0.0.4 2-4 *\n")?;
    let both = Combined {
        first,
        second,
        by: Join,
    };
    let mut bytes = vec![in rt.alloc(); 0u8; 512]?;
    assert_eq!(rt;
        pack::<Verdicts, Combined<Book<Verdicts>, Book<Verdicts>, Join>>(
            rt.alloc(),
            &both,
            &mut bytes
        ),
        Ok(11)
    );
    match Table::<Verdicts>::open(rt.alloc(), &bytes) {
        Ok(table) => {
            assert_eq!(rt; table.row_count(), 11);
            Ok(())
        },
        Err(_) => Err(Fail::new("the packed table is not opened")),
    }
}
