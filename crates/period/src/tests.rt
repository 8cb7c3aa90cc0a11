use crate::faults::NotAPeriod;
use crate::period::Period;
use std::test::Fail;

// The two numbers of the period that is named, or the number of the refusal.
fn named(numerator: u64, denominator: u64) -> Result<(u64, u16), u8> {
    Period::named(numerator, denominator)
        .map(|p| (p.numerator(), p.denominator()))
        .map_err(NotAPeriod::number)
}

#[test]
fn lowest_terms(rt: HostRuntime) {
    assert_eq!(rt; named(6, 4), Ok((3, 2)));
    assert_eq!(rt; named(0, 7), Ok((0, 1)));
    assert_eq!(rt; named(4_095, 4_095), Ok((1, 1)));
    assert_eq!(rt; named(39_999_999_999, 4_095), Ok((13_333_333_333, 1_365)));
}

#[test]
fn limits(rt: HostRuntime) {
    assert_eq!(rt; named(40_000_000_000, 1), Ok((40_000_000_000, 1)));
    assert_eq!(rt; named(1, 4_095), Ok((1, 4_095)));
    assert_eq!(rt; named(40_000_000_001, 1), Err(12));
    assert_eq!(rt; named(1, 0), Err(12));
    assert_eq!(rt; named(1, 4_096), Err(12));
    assert_eq!(rt;
        named(40_000_000_001, 2),
        Err(12),
        "refused as written, though short enough"
    );
    assert_eq!(rt;
        named(8_192, 8_192),
        Err(12),
        "refused as written, though whole"
    );
}

#[test]
fn order(rt: HostRuntime) -> Result<(), Fail> {
    let short = Period::named(4_094, 4_095)?;
    let long = Period::from(1);
    assert!(rt; short < long);
    assert!(rt; long > short);
    assert!(rt; Period::zero() < short);
    assert!(rt; Period::longest() > Period::from(u32::MAX));
    assert!(rt; !(long < long));
    assert_eq!(rt; Period::named(3, 3)?, long);
    Ok(())
}

#[test]
fn text(rt: HostRuntime) -> Result<(), Fail> {
    let p = Period::named(6, 4)?;
    let shown = format!(in rt.alloc(); "{p}")?;
    assert_eq!(rt; shown.as_str(), "3/2");
    let longest = Period::longest();
    let shown = format!(in rt.alloc(); "{longest}")?;
    assert_eq!(rt; shown.as_str(), "40000000000/1");
    Ok(())
}
