use std::test::Fail;
use zone_core::ZoneError;

#[test]
fn a_refusal_says_why(rt: HostRuntime) -> Result<(), Fail> {
    for (refusal, want) in [
        (ZoneError::Range, "refused: an argument is out of its range"),
        (ZoneError::NoFrame, "refused: no frame is free"),
        (ZoneError::Memory, "refused: there is not enough memory"),
    ] {
        let text = format!(in rt.alloc(); "refused: {refusal}")?;
        assert_eq!(rt; text.as_str(), want);
    }
    Ok(())
}
