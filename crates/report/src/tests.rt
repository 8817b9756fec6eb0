// What is printed of a good text and of a refused one.
use crate::printed_rows;
use decision::Verdicts;
use std::test::Fail;

#[test]
fn rows_and_refusals_are_printed(rt: HostRuntime) -> Result<(), Fail> {
    match printed_rows::<Verdicts>(rt.alloc(), b"# no rule\n")? {
        Ok(lines) => assert_eq!(rt; lines.as_str(), "rows 1\nnone * * * * *\n"),
        Err(_) => return Err(Fail::new("a comment is refused")),
    }
    match printed_rows::<Verdicts>(rt.alloc(), b"allow x")? {
        Ok(_) => Err(Fail::new("a short line is taken")),
        Err(line) => {
            assert_eq!(rt; line.as_str(), "refused 8 layer 3 line 1 column 8\n");
            Ok(())
        }
    }
}
