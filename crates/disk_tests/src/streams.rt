// Streams whose bytes and faults are known.
use crate::rows::{holds, same};
use repl_io::{Failed, MemSink, MemSource, Sink, Source, StdSink, StdSource};

#[test]
fn a_source_reads_to_its_end_and_fails_once(rt: HostRuntime) {
    let bytes = vec![in rt.alloc(); 1, 2, 3].expect(&rt, "memory");
    let faults = vec![in rt.alloc(); 1].expect(&rt, "memory");
    let mut source = MemSource::new(bytes, faults);
    let mut buf = [0; 2];
    holds(&rt, source.read(&mut buf) == Ok(2), b"two bytes");
    same(&rt, &buf, &[1, 2]);
    holds(&rt, source.read(&mut buf) == Err(Failed), b"a fault");
    holds(&rt, source.faults() == 1, b"one fault");
    holds(&rt, source.read(&mut buf) == Ok(1), b"one byte");
    holds(&rt, buf[0] == 3, b"the third byte");
    holds(&rt, source.read(&mut buf) == Ok(0), b"the end");
    holds(&rt, source.faults() == 1, b"one fault still");
}

#[test]
fn a_sink_takes_one_byte_a_call(rt: HostRuntime) {
    let faults = vec![in rt.alloc(); 1].expect(&rt, "memory");
    let mut sink = MemSink::new(rt.alloc(), faults, 1, 2).expect(&rt, "memory");
    holds(&rt, sink.write(b"abc") == Ok(1), b"one byte");
    holds(&rt, sink.write(b"bc") == Err(Failed), b"a fault");
    holds(&rt, sink.write(b"bc") == Ok(1), b"one byte more");
    same(&rt, sink.bytes(), b"ab");
    holds(&rt, sink.faults() == 1, b"one fault");
    holds(&rt, sink.write(b"c") == Err(Failed), b"a full sink");
    holds(&rt, sink.faults() == 2, b"two faults");
}

#[test]
fn a_source_over_a_reader(rt: HostRuntime) {
    let mut source = StdSource::new(&b"ab"[..]);
    let mut buf = [0; 4];
    holds(&rt, source.read(&mut buf) == Ok(2), b"two bytes");
    holds(&rt, source.read(&mut buf) == Ok(0), b"the end");
    holds(&rt, source.faults() == 0, b"no fault");
}

#[test]
fn a_sink_over_a_full_writer(rt: HostRuntime) {
    let mut room = [0; 2];
    let mut sink = StdSink::new(&mut room[..]);
    holds(&rt, sink.write(b"abc") == Ok(2), b"two bytes");
    holds(&rt, sink.write(b"c") == Err(Failed), b"a full writer");
    holds(&rt, sink.faults() == 1, b"one fault");
}
