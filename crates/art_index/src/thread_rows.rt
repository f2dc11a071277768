//! What loads print, and servers: commands of many threads, and sessions over sockets.
use art_server::Counted;
use art_tools::execute;
use std::alloc::Global;
use std::io::{Read, Write};
use std::net::{Ipv4Addr, Net, TcpListener, TcpStream};
use std::process::Abort;
use std::sync::Wait;
use std::thread::{Threads, join, sleep};
use std::time::{Clock, Duration};

/// The words end with this status, and this is written and said of faults.
fn check_ended<H>(rt: &H, alloc: Global, words: &[&str], status: u8, output: &str, faults: &str)
where
    H: Abort + Threads + Wait + Sync + Net<Listener = TcpListener, Stream = TcpStream>,
{
    let mut written = Vec::new(alloc);
    let mut said = Vec::new(alloc);
    let mut reader = Counted::new(b"".as_slice());
    let ended = execute(rt, alloc, &*words, &mut reader, &mut written, &mut said);
    assert_eq!(rt; said.as_slice(), faults.as_bytes(), "at {words:?}");
    assert_eq!(rt; written.as_slice(), output.as_bytes());
    assert_eq!(rt; ended, status);
}

#[test]
fn a_load_of_no_command_prints_zeros(rt: HostRuntime) {
    let words = ["art_index", "load", "--threads", "2", "--ops", "0"];
    let zeros = "inserted 0\npresent 0\nremoved 0\nabsent 0\nfound 0\nrefused 0\nrows 0\n";
    check_ended(&rt, rt.alloc(), &words, 0, zeros, "");
}

/// One thread draws the keys 1, 8, 15 and so on below 1,000: of twelve steps six insert, three remove and three get.
#[test]
fn a_load_of_one_thread_prints_what_a_sorted_map_says(rt: HostRuntime) {
    let words = ["art_index", "load", "--threads=1", "--ops=12"];
    let counts = "inserted 6\npresent 0\nremoved 0\nabsent 6\nfound 0\nrefused 0\nrows 6\n";
    check_ended(&rt, rt.alloc(), &words, 0, counts, "");
    let words = ["art_index", "load", "--threads=1", "--ops=12", "--keys=1"];
    let counts = "inserted 1\npresent 5\nremoved 1\nabsent 5\nfound 0\nrefused 0\nrows 0\n";
    check_ended(&rt, rt.alloc(), &words, 0, counts, "");
}

/// The number that a line of the text has after this word, or 0.
fn number_after(text: &str, word: &str) -> u64 {
    for line in text.lines() {
        if let Some(number) = line.strip_prefix(word) {
            return number.trim().parse::<u64>().unwrap_or(0);
        }
    }
    0
}

/// The six counts add up to all commands, and the rows are those inserted less those removed.
fn check_counts(rt: &impl Abort, text: &str, all: u64) {
    let mut sum = 0u64;
    for word in [
        "inserted", "present", "removed", "absent", "found", "refused",
    ] {
        sum = sum.wrapping_add(number_after(text, word));
    }
    assert_eq!(rt; sum, all, "{text}");
    let kept = number_after(text, "inserted").wrapping_sub(number_after(text, "removed"));
    assert_eq!(rt; number_after(text, "rows"), kept, "{text}");
}

/// A load of eight threads ends well, and its counts add up.
fn check_eight<H>(rt: &H, alloc: Global)
where
    H: Abort + Threads + Wait + Sync + Net<Listener = TcpListener, Stream = TcpStream>,
{
    let words = ["art_index", "load", "--threads", "8", "--ops", "10000"];
    let mut written = Vec::new(alloc);
    let mut said = Vec::new(alloc);
    let mut reader = Counted::new(b"".as_slice());
    let ended = execute(rt, alloc, &words, &mut reader, &mut written, &mut said);
    assert_eq!(rt; ended, 0);
    assert!(rt; said.is_empty());
    let text = std::str::from_utf8(written.as_slice());
    check_counts(rt, text.ok().expect(rt, "a text"), 80_000);
}

#[test]
fn a_load_of_eight_threads_adds_up(rt: HostRuntime) {
    check_eight(&rt, rt.alloc());
}

#[test]
fn numbers_out_of_their_ranges_end_with_three(rt: HostRuntime) {
    for words in [
        ["art_index", "load", "--threads=0", "--ops=1"].as_slice(),
        &["art_index", "load", "--threads=33", "--ops=1"],
        &["art_index", "load", "--ops=1000001", "--leaves=9"],
        &[
            "art_index",
            "load",
            "--seed=18446744073709551616",
            "--ops=1",
        ],
        &["art_index", "load", "--keys=0", "--ops=1"],
        &[
            "art_index",
            "load",
            "--keys=18446744073709551616",
            "--ops=1",
        ],
        &["art_index", "load", "--leaves=0", "--ops=1"],
        &["art_index", "serve", "--port=0", "--sessions=0"],
        &["art_index", "serve", "--port=65536", "--sessions=0"],
        &["art_index", "serve", "--port=7411", "--workers=0"],
        &["art_index", "serve", "--port=7411", "--workers=33"],
        &["art_index", "serve", "--port=7411", "--sessions=4294967296"],
        &["art_index", "serve", "--port=7411", "--n4=0"],
    ] {
        let said = "art_index: refused 24 BadConfig\n";
        check_ended(&rt, rt.alloc(), words, 3, "", said);
    }
    let words = ["art_index", "serve", "--port=7411", "--schema=u24"];
    let said = "art_index: refused 23 BadColumn\n";
    check_ended(&rt, rt.alloc(), &words, 3, "", said);
}

/// A listener on some port, and the port.
fn listener<H>(rt: &H) -> (TcpListener, u16)
where
    H: Abort + Net<Listener = TcpListener, Stream = TcpStream>,
{
    let listener = TcpListener::bind(rt, (Ipv4Addr::LOCALHOST, 0)).ok();
    let listener = listener.expect(rt, "a port");
    let address = listener.local_addr().ok().expect(rt, "an address");
    (listener, address.port())
}

#[test]
fn a_port_that_is_taken_ends_with_seven(rt: HostRuntime) {
    let (taken, port) = listener(&rt);
    let option = format!(in rt.alloc(); "--port={port}").expect(&rt, "room for a word");
    let words = ["art_index", "serve", option.as_str()];
    let said = "art_index: cannot listen\n";
    check_ended(&rt, rt.alloc(), &words, 7, "", said);
    let _: TcpListener = taken;
}

/// A server on the port ends well, after so many sessions.
fn check_served<H>(rt: &H, alloc: Global, port: u16, sessions: &str)
where
    H: Abort + Threads + Wait + Sync + Net<Listener = TcpListener, Stream = TcpStream>,
{
    let port = format!(in alloc; "{port}").expect(rt, "room for a word");
    let words = [
        "art_index",
        "serve",
        "--schema=u8",
        "--port",
        port.as_str(),
        "--sessions",
        sessions,
    ];
    let said = format!(in alloc; "art_index: listening on 127.0.0.1:{port}\n");
    let said = said.expect(rt, "room for a line");
    let served = format!(in alloc; "served {sessions}\n").expect(rt, "room for a line");
    check_ended(rt, alloc, &words, 0, served.as_str(), said.as_str());
}

#[test]
fn a_server_of_no_session_ends_at_once(rt: HostRuntime) {
    let (free, port) = listener(&rt);
    drop(free);
    check_served(&rt, rt.alloc(), port, "0");
}

/// A connection to the port, once there is a listener.
fn connected<H>(rt: &H, port: u16) -> TcpStream
where
    H: Abort + Clock + Net<Listener = TcpListener, Stream = TcpStream>,
{
    for _ in 0..10_000u32 {
        if let Ok(stream) = TcpStream::connect(rt, (Ipv4Addr::LOCALHOST, port)) {
            return stream;
        }
        let _ = sleep(rt, Duration::from_millis(1));
    }
    panic!(rt; "no listener")
}

/// A client that sends a line is answered so before it sends another.
fn ask(rt: &impl Abort, stream: &mut TcpStream, line: &str, reply: &str) {
    stream
        .write_all(line.as_bytes())
        .ok()
        .expect(rt, "a line sent");
    let mut room = [0; 64];
    let count = stream.read(&mut room).ok().expect(rt, "a reply");
    assert!(rt; &room[..count] == reply.as_bytes());
}

/// Two clients, one after another: the second finds the row of the first.
fn talk<H>(rt: &H, port: u16)
where
    H: Abort + Clock + Net<Listener = TcpListener, Stream = TcpStream>,
{
    let mut first = connected(rt, port);
    ask(rt, &mut first, "[\"insert\",[5],9]\n", "[\"inserted\"]\n");
    ask(rt, &mut first, "[\"get\",[5]]\n", "[\"found\",9]\n");
    let mut second = connected(rt, port);
    ask(rt, &mut second, "[\"get\",[5]]\n", "[\"found\",9]\n");
    ask(rt, &mut second, "{\n", "[\"refused\",1,\"BadLine\"]\n");
}

/// The server beside its clients.
fn serve_and_talk<H>(rt: &H, alloc: Global, port: u16)
where
    H: Abort + Clock + Threads + Wait + Sync + Net<Listener = TcpListener, Stream = TcpStream>,
{
    join(rt, || check_served(rt, alloc, port, "2"), || talk(rt, port));
}

#[test]
fn clients_of_a_server_are_answered_line_by_line(rt: HostRuntime) {
    let (free, port) = listener(&rt);
    drop(free);
    serve_and_talk(&rt, rt.alloc(), port);
}
