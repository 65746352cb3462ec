// Sites and their states, and the words of a command line.
use super::ran::{FIRST_SET, FIRST_SET_PRINTS, ended, ends, prints, prints_last, ran, same};
use site_runner::Status;
use std::alloc::Global;
use std::process::Abort;

#[test]
fn empty_script(rt: HostRuntime) {
    ends(&rt, rt.alloc(), b"", Status::Ok, b"");
}

#[test]
fn first_set(rt: HostRuntime) {
    ends(&rt, rt.alloc(), FIRST_SET, Status::Ok, FIRST_SET_PRINTS);
}

#[test]
fn first_set_without_its_last_line_feed(rt: HostRuntime) {
    let script = &FIRST_SET[..FIRST_SET.len() - 1];
    ends(&rt, rt.alloc(), script, Status::Ok, FIRST_SET_PRINTS);
}

const REFUSALS: &str = "\
START A PRIMARY
CREATE A R
CREATE A R
RUN A
END
STOP A
START A PRIMARY
START A PRIMARY
STOP A
--
A NOSITE
A CREATED
A EXISTS
A NOTPRIMARY
A NOTRUNNING
A PRIMARY 1 FROM 1
A RUNNING
A DOWN 0
";

#[test]
fn refusals(rt: HostRuntime) {
    prints(&rt, rt.alloc(), REFUSALS);
}

const TWO_SITES: &str = "\
CREATE A R
CREATE Bank2 ACCOUNT
START Bank2 PRIMARY
RUN Bank2
64 SET ^X=1
END
ZWRITE Bank2
EXTRACT A
ZWRITE C
START A PRIMARY
ZWRITE A
EXTRACT Bank2 2
--
A CREATED
Bank2 CREATED
Bank2 PRIMARY 1 FROM 1
64.1 SEQ 1
Bank2 AT 1
^X=\"1\"
A NOTRUNNING
C NOSITE
A PRIMARY 1 FROM 1
GTMRJEX01\\Bank2\\2
";

/// Sites have any names of the form, and each a disk of its own.
#[test]
fn two_sites(rt: HostRuntime) {
    prints(&rt, rt.alloc(), TWO_SITES);
}

const A_NINTH_SITE: &str = "\
CREATE A R
CREATE B R
CREATE C R
CREATE D R
CREATE E R
CREATE F R
CREATE G R
CREATE H R
CREATE I R
--
H CREATED
I NODISK
";

#[test]
fn a_ninth_site(rt: HostRuntime) {
    prints_last(&rt, rt.alloc(), A_NINTH_SITE);
}

fn are_bad(rt: &impl Abort, alloc: Global, words: &str) {
    let (status, out) = ran(rt, alloc, words, FIRST_SET, &[], &[], 4096);
    ended(rt, status, Status::BadWords);
    same(rt, out.as_slice(), b"");
}

#[test]
fn words_that_are_no_command_line(rt: HostRuntime) {
    are_bad(&rt, rt.alloc(), "run --pool 8");
    are_bad(&rt, rt.alloc(), "run run");
    are_bad(&rt, rt.alloc(), "");
}
