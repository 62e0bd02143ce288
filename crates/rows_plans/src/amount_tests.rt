//! Amounts and costs.

use plan_words::{WordFault, amount, cost};

/// How many decimals amounts have, a word, and its units.
type AmountRow = (u8, &'static [u8], Result<u64, WordFault>);

const AMOUNTS: [AmountRow; 17] = [
    (0, b"15", Ok(15)),
    (0, b"0", Ok(0)),
    (1, b"15", Ok(150)),
    (2, b"15", Ok(1500)),
    (2, b"15.5", Ok(1550)),
    (2, b"15.05", Ok(1505)),
    (3, b"15.005", Ok(15005)),
    (3, b"9999999.999", Ok(9999999999)),
    (2, b"10000000", Err(WordFault::NoAmount)),
    (2, b"15,50", Err(WordFault::NoAmount)),
    (2, b"15.", Err(WordFault::NoAmount)),
    (2, b".50", Err(WordFault::NoAmount)),
    (2, b"015", Err(WordFault::NoAmount)),
    (2, b"1.5.0", Err(WordFault::NoAmount)),
    (2, b"-1", Err(WordFault::NoAmount)),
    (0, b"15.50", Err(WordFault::Decimals { found: 2, have: 0 })),
    (
        2,
        b"15.0000",
        Err(WordFault::Decimals { found: 4, have: 2 }),
    ),
];

// Whether the words are read as these units.
fn are_read(rows: &[AmountRow]) -> bool {
    for (decimals, word, want) in rows {
        if amount(*decimals, word) != *want {
            return false;
        }
    }
    true
}

#[test]
fn amounts_are_read(rt: HostRuntime) {
    assert!(rt; are_read(&AMOUNTS));
}

#[test]
fn costs_are_limited(rt: HostRuntime) {
    assert!(rt; cost(2, b"100.00") == Ok(10000));
    assert!(rt; cost(2, b"120.00") == Err(WordFault::Units { units: 12000 }));
}
