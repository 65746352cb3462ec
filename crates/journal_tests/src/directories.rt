// Overlapping patterns, eight regions, and each error.
use crate::rows::{cut, holds, lines};
use global_dir::{DirError, Directory};
use std::alloc::Global;
use std::process::Abort;

/// Patterns and their regions.
const MAPPED: &[u8] = b"\
A*|1
ABC|2
AB*|3
ABC*|4
%*|5
%Z|6
A|7
ABCD*|0
";

/// Names and their regions.
const NAMES: &[u8] = b"\
A|7
AA|1
AB|3
ABA|3
ABC|2
ABCE|4
ABCDE|0
%|5
%Z|6
%ZZ|5
B|0
a|0
";

/// Texts that are no patterns.
const REFUSED: &[u8] = b"
*
A**
A*B
1A
A%
A B
A2345678901234567890123456789012
A2345678901234567890123456789012*
";

/// The region of a row.
fn region(digit: &[u8]) -> u8 {
    digit.first().copied().unwrap_or(b'9').wrapping_sub(b'0')
}

fn mapped(rt: &impl Abort, alloc: Global) -> Directory {
    let mut directory = Directory::new(alloc, 8);
    for row in &lines(rt, alloc, MAPPED) {
        let (pattern, number) = cut(row);
        directory
            .map(region(number), pattern)
            .expect(rt, "a pattern");
    }
    directory
}

fn all_have_their_region(rt: &impl Abort, alloc: Global, directory: &Directory) {
    for row in &lines(rt, alloc, NAMES) {
        let (name, number) = cut(row);
        holds(rt, directory.region_of(name) == region(number), row);
    }
}

#[test]
fn overlapping_patterns(rt: HostRuntime) {
    let directory = mapped(&rt, rt.alloc());
    let copied = directory.copy().expect(&rt, "memory");
    holds(&rt, copied.regions() == 8, b"eight regions");
    holds(&rt, copied.patterns().len() == 8, b"eight patterns");
    all_have_their_region(&rt, rt.alloc(), &directory);
    all_have_their_region(&rt, rt.alloc(), &copied);
}

#[test]
fn texts_that_are_no_patterns(rt: HostRuntime) {
    let mut directory = Directory::new(rt.alloc(), 2);
    for text in &lines(&rt, rt.alloc(), REFUSED) {
        let error = directory.map(9, text).err();
        holds(&rt, error == Some(DirError::BadPattern), text);
    }
}

#[test]
fn refused_patterns(rt: HostRuntime) {
    let mut directory = Directory::new(rt.alloc(), 2);
    holds(
        &rt,
        directory.map(2, b"A") == Err(DirError::NoRegion),
        b"region 2",
    );
    directory.map(1, b"A*").expect(&rt, "a pattern");
    holds(
        &rt,
        directory.map(0, b"A*") == Err(DirError::TwiceMapped),
        b"A*",
    );
    holds(
        &rt,
        directory.map(2, b"A*") == Err(DirError::NoRegion),
        b"region 2",
    );
}

#[test]
fn added_patterns(rt: HostRuntime) {
    let mut directory = Directory::new(rt.alloc(), 2);
    directory.map(1, b"A*").expect(&rt, "a pattern");
    directory.map(0, b"A").expect(&rt, "a pattern");
    let long = b"A234567890123456789012345678901*";
    directory.map(1, long).expect(&rt, "a pattern");
    directory.add(1, true, b"B").expect(&rt, "memory");
    holds(&rt, directory.patterns().len() == 4, b"four patterns");
    holds(&rt, directory.region_of(b"A1") == 1, b"A1");
    holds(&rt, directory.region_of(b"B1") == 1, b"B1");
}
