// Jobs of every statement, and the nodes that they leave.
use super::ran::{prints, prints_last};

const COLLATION: &str = "\
CREATE A R
START A PRIMARY
RUN A
1 SET ^X(10)=1
1 SET ^X(9)=2
1 SET ^X(-1)=3
1 SET ^X(.5)=4
1 SET ^X(\"A\")=5
1 SET ^X(\"a\")=6
1 SET ^X(\"01\")=7
END
ZWRITE A
STOP A
--
A AT 7
^X(-1)=\"3\"
^X(.5)=\"4\"
^X(9)=\"2\"
^X(10)=\"1\"
^X(\"01\")=\"7\"
^X(\"A\")=\"5\"
^X(\"a\")=\"6\"
A DOWN 7
";

/// Numbers collate by value before strings, strings by their bytes.
#[test]
fn collation(rt: HostRuntime) {
    prints_last(&rt, rt.alloc(), COLLATION);
}

const LONG_NUMERALS: &str = "\
CREATE A R
START A PRIMARY
RUN A
1 SET ^X(123456789012345678)=1
1 SET ^X(\"1234567890123456789\")=2
1 SET ^X(\"12\")=3
END
ZWRITE A
--
A AT 3
^X(12)=\"3\"
^X(123456789012345678)=\"1\"
^X(\"1234567890123456789\")=\"2\"
";

/// A numeral of more than 18 digits is a string, and stands in quotes.
#[test]
fn long_numerals(rt: HostRuntime) {
    prints_last(&rt, rt.alloc(), LONG_NUMERALS);
}

const TEXT_OF_MIXED_BYTES: &str = "\
CREATE A R
START A PRIMARY
RUN A
1 SET ^X=\"a\"\"b\"_$C(10)_\"c\"_$C(255)
END
ZWRITE A
--
A AT 1
^X=\"a\"\"b\"_$C(10)_\"c\"_$C(255)
";

#[test]
fn text_of_mixed_bytes(rt: HostRuntime) {
    prints_last(&rt, rt.alloc(), TEXT_OF_MIXED_BYTES);
}

const KILL_AND_DATA: &str = "\
CREATE A R
START A PRIMARY
RUN A
1 SET ^X(1)=1
1 SET ^X(1,2)=2
1 SET ^Y(1)=1
1 SET ^Y(1,2)=2
1 KILL ^X(1)
1 ZKILL ^Y(1)
1 DATA ^X(1)
1 DATA ^Y(1)
1 DATA ^Y(1,2)
1 DATA ^Y
END
--
A CREATED
A PRIMARY 1 FROM 1
1.1 SEQ 1
1.2 SEQ 2
1.3 SEQ 3
1.4 SEQ 4
1.5 SEQ 5
1.6 SEQ 6
1.7 READ 0
1.8 READ 10
1.9 READ 1
1.10 READ 10
A AT 6
";

#[test]
fn kill_and_data(rt: HostRuntime) {
    prints(&rt, rt.alloc(), KILL_AND_DATA);
}

const ARITHMETIC: &str = "\
CREATE A R
START A PRIMARY
RUN A
1 SET ^X=\"abc\"
1 INCR ^X 1
1 INCR ^Y -5
1 INCR ^Z 999999999999999999
1 INCR ^Z 1
1 CHECK ^Y>=0
1 CHECK ^X=\"abc\"
1 ORDER ^Y(\"\")
END
--
A CREATED
A PRIMARY 1 FROM 1
1.1 SEQ 1
1.2 ROLLEDBACK NOTNUM
1.3 SEQ 2 -5
1.4 SEQ 3 999999999999999999
1.5 ROLLEDBACK NOTNUM
1.6 ROLLEDBACK CHECK
1.7 READ
1.8 READ \"\"
A AT 3
";

#[test]
fn arithmetic(rt: HostRuntime) {
    prints(&rt, rt.alloc(), ARITHMETIC);
}

const TRANSACTIONS_OF_TWO_UPDATERS: &str = "\
CREATE A R
START A PRIMARY
RUN A
2 TSTART
1 INCR ^C 1
2 INCR ^C 10
2 GET ^C
2 SET ^D=\"x\"
2 TCOMMIT
1 GET ^C
1 TSTART
1 TCOMMIT
END
EXTRACT A
--
A CREATED
A PRIMARY 1 FROM 1
2.1 SEQ 1 10 \"10\"
1.1 SEQ 2 11
1.2 READ \"11\"
1.3 READ
A AT 2
GTMRJEX01\\A\\1
TSTART\\1\\A.1\\2.1
SET\\1\\A.1\\2.1\\^C=\"10\"
SET\\1\\A.1\\2.1\\^D=\"x\"
TCOM\\1\\A.1\\2.1
SET\\2\\A.1\\1.1\\^C=\"11\"
";

/// Updaters' transactions stand among one another; jobs are decided in the order of their first lines.
#[test]
fn transactions_of_two_updaters(rt: HostRuntime) {
    prints(&rt, rt.alloc(), TRANSACTIONS_OF_TWO_UPDATERS);
}

const A_TRANSFER_AND_A_CRASH: &str = "\
CREATE A R
START A PRIMARY
RUN A
1 SET ^ACCT(1)=100
1 SET ^ACCT(2)=20
1 TSTART
1 CHECK ^ACCT(1)>=30
1 INCR ^ACCT(1) -30
1 INCR ^ACCT(2) 30
1 TCOMMIT
1 TSTART
1 INCR ^ACCT(1) 1
1 CHECK ^ACCT(2)>=500
1 TCOMMIT
END
CRASH A 0
START A PRIMARY
RUN A
1 GET ^ACCT(1)
1 KILL ^ACCT(2)
END
ZWRITE A
EXTRACT A 4
--
A CREATED
A PRIMARY 1 FROM 1
1.1 SEQ 1
1.2 SEQ 2
1.3 SEQ 3 70 50
1.4 ROLLEDBACK CHECK
A AT 3
A CRASHED
A PRIMARY 2 FROM 4
1.1 READ \"70\"
1.2 SEQ 4
A AT 4
^ACCT(1)=\"70\"
GTMRJEX01\\A\\4
KILL\\4\\A.2\\1.2\\^ACCT(2)
";

/// A failed check rolls a whole transaction back, and nodes and serials stand after a crash.
#[test]
fn a_transfer_and_a_crash(rt: HostRuntime) {
    prints(&rt, rt.alloc(), A_TRANSFER_AND_A_CRASH);
}

const PARTS_OF_THE_GLOBALS: &str = "\
CREATE A R
START A PRIMARY
RUN A
1 SET ^X(1)=1
1 SET ^X(1,\"a\")=2
1 SET ^X(2)=3
1 SET ^X=0
1 ORDER ^X(\"\")
1 ORDER ^X(1)
1 ORDER ^X(2)
1 ORDER ^X(1,\"\")
END
ZWRITE A ^X(1)
ZWRITE A ^Y
--
1.5 READ 1
1.6 READ 2
1.7 READ \"\"
1.8 READ \"a\"
A AT 4
^X(1)=\"1\"
^X(1,\"a\")=\"2\"
";

/// A node and those below it, and a level's subscripts one after another.
#[test]
fn parts_of_the_globals(rt: HostRuntime) {
    prints_last(&rt, rt.alloc(), PARTS_OF_THE_GLOBALS);
}
