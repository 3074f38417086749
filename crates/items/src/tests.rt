// Articles made from published codes, and refused when spoiled.
use crate::article::Article;
use crate::kind::Kind;
use std::test::Fail;

// Example codes that GS1 and others have published, of each length.
const PUBLISHED: [&[u8]; 8] = [
    b"96385074",
    b"73513537",
    b"614141000036",
    b"036000291452",
    b"6291041500213",
    b"4006381333931",
    b"80614141123458",
    b"10614141000415",
];

// The figure and the width of the article, or the number of the fault.
fn outcome(code: &[u8]) -> Result<(u64, u8), u8> {
    Article::from_bytes(code)
        .map(|article| (article.figure(), article.width()))
        .map_err(u8::from)
}

// The code with another digit at `at`, and zeros behind it: in fixed memory, since a Vec would ask each test for an allocator.
fn spoiled(code: &[u8], at: usize) -> [u8; 14] {
    let mut bytes = [b'0'; 14];
    for (slot, (i, b)) in bytes.iter_mut().zip(code.iter().enumerate()) {
        *slot = if i == at {
            b'0' + b.wrapping_sub(b'0').wrapping_add(1) % 10
        } else {
            *b
        };
    }
    bytes
}

#[test]
fn published_codes_are_made(rt: HostRuntime) {
    for code in PUBLISHED {
        assert!(rt; outcome(code).is_ok());
    }
    assert_eq!(rt; outcome(b"96385074"), Ok((96385074, 8)));
    assert_eq!(rt; outcome(b"036000291452"), Ok((36000291452, 12)));
    assert_eq!(rt; outcome(b"80614141123458"), Ok((80614141123458, 14)));
}

#[test]
fn one_wrong_digit_is_refused(rt: HostRuntime) {
    for code in PUBLISHED {
        for at in 0..code.len() {
            let bytes = spoiled(code, at);
            assert!(rt; code.len() <= 14);
            assert_eq!(rt; outcome(&bytes[0..code.len()]), Err(11));
        }
    }
}

#[test]
fn widths_do_not_part_an_article(rt: HostRuntime) -> Result<(), Fail> {
    assert_eq!(rt; outcome(b"2000000000009"), Err(11));
    let short = Article::from_bytes(b"2000000000008")?;
    let long = Article::from_bytes(b"02000000000008")?;
    assert!(rt; short.is_same(&long));
    assert_eq!(rt; short.width(), 13);
    assert_eq!(rt; long.width(), 14);
    Ok(())
}

#[test]
fn faults_come_in_their_order(rt: HostRuntime) {
    assert_eq!(rt; outcome(b""), Err(9));
    assert_eq!(rt; outcome(b"12345A"), Err(9));
    assert_eq!(rt; outcome(b"963850 4"), Err(10));
    assert_eq!(rt; outcome(b"9638507A"), Err(10));
    assert_eq!(rt; outcome(b"96385075"), Err(11));
}
