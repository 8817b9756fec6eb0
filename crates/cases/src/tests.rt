// Cases whose answers are known.
use crate::{bytes, ended, number, packet};
use packet::Packet;
use report::{TOO_LARGE, Unanswered};
use std::test::Fail;

#[test]
fn digits_write_bytes(rt: HostRuntime) -> Result<(), Fail> {
    let some = bytes(rt.alloc(), "00ff2a")?;
    assert_eq!(rt; some.as_slice(), [0, 255, 42].as_slice());
    let odd = bytes(rt.alloc(), "1FgA7")?;
    assert_eq!(rt; odd.as_slice(), [16, 0].as_slice());
    let none = bytes(rt.alloc(), "-")?;
    assert!(rt; none.is_empty());
    Ok(())
}

#[test]
fn five_numbers_are_a_packet(rt: HostRuntime) -> Result<(), Fail> {
    let largest = packet(&["4294967295", "65535", "4294967295", "65535", "255"]);
    assert_eq!(rt; largest, Packet::LARGEST);
    let above = packet(&["4294967295", "65536", "4294967295", "70000", "256", "1"]);
    assert_eq!(rt; above, Packet::LARGEST);
    assert_eq!(rt; packet(&["x", "", "4294967296"]), Packet::default());
    Ok(())
}

#[test]
fn a_word_is_a_number(rt: HostRuntime) -> Result<(), Fail> {
    assert_eq!(rt; number("64"), 64);
    assert_eq!(rt; number("4294967296"), 0);
    assert_eq!(rt; number("6x"), 0);
    Ok(())
}

#[test]
fn answers_end(rt: HostRuntime) -> Result<(), Fail> {
    let lines = ended(
        rt.alloc(),
        Ok(String::from_str(rt.alloc(), "findings 0\n")?),
    )?;
    assert_eq!(rt; lines.as_str(), "findings 0\nend\n");
    let refused = ended(rt.alloc(), Err(Unanswered::Refused(TOO_LARGE)))?;
    assert_eq!(rt;
        refused.as_str(),
        "refused 5 layer 0 line 0 column 0\nend\n"
    );
    Ok(())
}
