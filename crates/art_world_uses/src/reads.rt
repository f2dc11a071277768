//! Words that were read, and forgotten again.
use art_cell::Reads;
use std::process::Abort;
use std::test::*;

/// The words at these places, where 0 is one that was not read.
fn check_reads(rt: &impl Abort, reads: &Reads, places: &[usize], words: &[u64]) {
    for (place, word) in places.iter().zip(words) {
        assert_eq!(rt; reads.get(*place).unwrap_or(0), *word);
    }
}

#[test]
fn what_was_read_is_known_until_it_is_forgotten(rt: HostRuntime) {
    let places = [0, 1, 63, 64, 65, 265, 266];
    let mut reads = Reads::new();
    check_reads(&rt, &reads, &places, &[0; 7]);
    reads.note(0, 7);
    reads.note(64, 8);
    reads.note(265, 9);
    check_reads(&rt, &reads, &places, &[7, 0, 0, 8, 0, 9, 0]);
    reads.clear();
    check_reads(&rt, &reads, &places, &[0; 7]);
    reads.note(65, 10);
    check_reads(&rt, &reads, &places, &[0, 0, 0, 0, 10, 0, 0]);
}
