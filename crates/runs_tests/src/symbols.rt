//! Symbols and errors of beats.

use stream_runs::beat::{count_symbols, join_errors, read_symbol};

/// Three symbols a beat to four: the last beat of the source holds one symbol, and the sink's second
/// beat holds 05, 06 and 07 with an error.
#[test]
fn three_to_four(rt: HostRuntime) {
    assert_eq!(rt; count_symbols(3, true, 2), 1);
    assert_eq!(rt; count_symbols(4, true, 1), 3);
    assert_eq!(rt; count_symbols(4, false, 1), 4);
    for (number, want) in [(0, 0x05), (1, 0x06), (2, 0x07)] {
        assert_eq!(rt; read_symbol(0x05060700, 4, 8, true, number), want);
    }
    assert_eq!(rt; read_symbol(0x0201, 2, 8, false, 0), 0x01);
    assert_eq!(rt; join_errors(&[1, 1, 0]), 1);
}
