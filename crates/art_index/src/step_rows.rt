//! What schedules print: how commands of several passes come between one another, step by step.
use art_server::Counted;
use art_tools::execute;
use std::alloc::Global;
use std::net::{Net, TcpListener, TcpStream};
use std::process::Abort;
use std::sync::Wait;
use std::test::Fail;
use std::thread::Threads;

/// A schedule of these words prints this, says this of faults, and ends with this status.
fn check_end<'a, H>(
    rt: &H,
    alloc: Global,
    words: &'a [&'a str],
    input: &[u8],
    expected: &[u8],
    told: &[u8],
    status: u8,
)
where
    H: Abort + Threads + Wait + Sync + Net<Listener = TcpListener, Stream = TcpStream>,
{
    let mut output = Vec::new(alloc);
    let mut faults = Vec::new(alloc);
    let mut reader = Counted::new(input);
    let ended = execute(rt, alloc, words, &mut reader, &mut output, &mut faults);
    assert_eq!(rt; output.as_slice(), expected);
    assert_eq!(rt; faults.as_slice(), told);
    assert_eq!(rt; ended, status);
}

/// A schedule under the schema prints this, and ends well.
fn check_steps<H>(rt: &H, alloc: Global, schema: &str, input: &[u8], expected: &[u8])
where
    H: Abort + Threads + Wait + Sync + Net<Listener = TcpListener, Stream = TcpStream>,
{
    let words = ["art_index", "step", "--schema", schema];
    check_end(rt, alloc, &words, input, expected, b"".as_slice(), 0);
}

/// Two rows share their first byte, so one node stands over both with it as its prefix. A get stands at that node when the prefix is split
/// above it: the node is read again, and then the row is found.
#[test]
fn a_reader_survives_a_split(rt: HostRuntime) {
    for (mark, printed) in [("read 3", "read"), ("check 1", "check")] {
        let input = format!(in rt.alloc();
            "A start 1000 [\"insert\",[257],1]\nA end\nA start 1000 [\"insert\",[258],2]\nA end\n\
            B start 1000 [\"get\",[258]]\nB until {mark}\n\
            A start 1000 [\"insert\",[515],3]\nA end\nB end\n"
        );
        let expected = format!(in rt.alloc();
            "A [\"inserted\"] restarts 0\nA [\"inserted\"] restarts 0\nB at {printed}\n\
            A [\"inserted\"] restarts 0\nB [\"found\",2] restarts 1\n"
        );
        let input = input.expect(&rt, "room for the lines");
        let expected = expected.expect(&rt, "room for what they print");
        check_steps(
            &rt,
            rt.alloc(),
            "u16",
            input.as_bytes(),
            expected.as_bytes(),
        );
    }
}

/// A get finds the node locked each time, until its turns are used; one whose tuple is refused then never began anew; once the insert has
/// ended the first finds its row.
#[test]
fn a_get_is_busy_while_its_node_is_locked(rt: HostRuntime) {
    let input = b"A start 1000 [\"insert\",[1],1]\nA end\nA start 1000 [\"insert\",[5],5]\nA end\n\
        A start 1000 [\"insert\",[3],3]\nA until upgrade\nB start 50 [\"get\",[5]]\nB end\n\
        B start 50 [\"get\",[300]]\nB end\nA end\nB start 50 [\"get\",[5]]\nB end\n";
    let expected = b"A [\"inserted\"] restarts 0\nA [\"inserted\"] restarts 0\nA at upgrade\n\
        B [\"refused\",10,\"Busy\"] restarts 12\nB [\"refused\",6,\"OutOfRange\"] restarts 0\n\
        A [\"inserted\"] restarts 0\nB [\"found\",5] restarts 0\n";
    check_steps(&rt, rt.alloc(), "u8", input, expected);
}

/// A scan has listed the row 1 when it goes, and comes to the row 2, which came meanwhile.
#[test]
fn rows_go_and_come_while_a_scan_is_under_way(rt: HostRuntime) {
    let input = b"A start 1000 [\"insert\",[1],1]\nA end\nA start 1000 [\"insert\",[5],5]\nA end\n\
        A start 1000 [\"scan\",[0],[9],100]\nA until event\nB start 1000 [\"remove\",[1]]\nB end\n\
        B start 1000 [\"insert\",[2],2]\nB end\nA end\n";
    let expected = b"A [\"inserted\"] restarts 0\nA [\"inserted\"] restarts 0\nA at event\n\
        B [\"removed\",1] restarts 0\nB [\"inserted\"] restarts 0\n\
        A [\"rows\",[[[1],1],[[2],2],[[5],5]],false] restarts 0\n";
    check_steps(&rt, rt.alloc(), "u8", input, expected);
}

/// The first look of a scan finds the node locked at its sixth step and again at its tenth, two of which pin it; none of its other looks
/// begins anew, and the scan tells both restarts.
#[test]
fn restarts_of_a_scan_are_those_of_all_its_looks(rt: HostRuntime) {
    let input = b"A start 1000 [\"insert\",[1],1]\nA end\nA start 1000 [\"insert\",[5],5]\nA end\n\
        A start 1000 [\"insert\",[3],3]\nA until upgrade\nB start 1000 [\"scan\",[0],[9],100]\n\
        B step 10\nA end\nB end\n";
    let expected =
        b"A [\"inserted\"] restarts 0\nA [\"inserted\"] restarts 0\nA at upgrade\nB stepped\n\
        A [\"inserted\"] restarts 0\nB [\"rows\",[[[1],1],[[3],3],[[5],5]],false] restarts 2\n";
    check_steps(&rt, rt.alloc(), "u8", input, expected);
}

/// The first attempt of A takes a leaf and the only Node16, the second a Node4, and the third finds the row. So all three go back, in that
/// order: once two of them have, C grows a Node4 into the Node16.
#[test]
fn numbers_in_hand_go_back_as_they_were_taken(rt: HostRuntime) {
    let words = ["art_index", "step", "--schema", "u8", "--n16", "1"];
    let input = b"B start 1000 [\"insert\",[1],1]\nB end\nB start 1000 [\"insert\",[2],2]\nB end\n\
        B start 1000 [\"insert\",[3],3]\nB end\nB start 1000 [\"insert\",[4],4]\nB end\n\
        A start 1000 [\"insert\",[5],5]\nA until take 4\n\
        B start 1000 [\"remove\",[4]]\nB end\nB start 1000 [\"remove\",[3]]\nB end\n\
        B start 1000 [\"remove\",[2]]\nB end\nA until take 2\n\
        B start 1000 [\"insert\",[5],9]\nB end\nA until give 2\n\
        C start 1000 [\"insert\",[2],2]\nC end\nC start 1000 [\"insert\",[3],3]\nC end\n\
        C start 1000 [\"insert\",[4],4]\nC end\nA end\n";
    let expected = b"B [\"inserted\"] restarts 0\nB [\"inserted\"] restarts 0\n\
        B [\"inserted\"] restarts 0\nB [\"inserted\"] restarts 0\nA at take\n\
        B [\"removed\",4] restarts 0\nB [\"removed\",3] restarts 0\nB [\"removed\",2] restarts 0\n\
        A at take\nB [\"inserted\"] restarts 0\nA at give\nC [\"inserted\"] restarts 0\n\
        C [\"inserted\"] restarts 0\nC [\"inserted\"] restarts 0\nA [\"present\",9] restarts 2\n";
    check_end(&rt, rt.alloc(), &words, input, expected, b"".as_slice(), 0);
}

#[test]
fn small_schedules(rt: HostRuntime) {
    for (input, expected) in [
        (b"".as_slice(), b"".as_slice()),
        (
            b"A start 0 [\"get\",[1]]\nA end\n",
            b"A [\"refused\",10,\"Busy\"] restarts 0\n",
        ),
        (
            b"A start 9 [\"get\"]\n",
            b"A [\"refused\",3,\"BadCommand\"] restarts 0\n",
        ),
        (
            b"A start 9 [\"get\",[256]]\nA end\n",
            b"A [\"refused\",6,\"OutOfRange\"] restarts 0\n",
        ),
        (
            b"A start 9 [\"get\",[1]]\nA step 6\nA end\n",
            b"A stepped\nA [\"absent\"] restarts 0\n",
        ),
        (
            b"A start 1000 [\"insert\",[1],1]\nA until commit\nA end\n",
            b"A at commit\nA [\"inserted\"] restarts 0\n",
        ),
    ] {
        check_steps(&rt, rt.alloc(), "u8", input, expected);
    }
}

#[test]
fn a_bad_line_ends_with_six(rt: HostRuntime) {
    for (input, expected, told) in [
        (
            b"A end\n".as_slice(),
            b"".as_slice(),
            b"art_index: schedule line 1\n".as_slice(),
        ),
        (
            b"A start 9 [\"get\",[1]]\nA end\nI start 9 [\"get\",[1]]\nA start 9 [\"get\",[1]]\n",
            b"A [\"absent\"] restarts 0\n",
            b"art_index: schedule line 3\n",
        ),
        (
            b"A start 9 [\"get\",[1]]\nB end",
            b"",
            b"art_index: schedule line 2\n",
        ),
    ] {
        let words = ["art_index", "step", "--schema", "u8"];
        check_end(&rt, rt.alloc(), &words, input, expected, told, 6);
    }
}

/// B inserts the row and removes it so often; each removal leaves a leaf in its limbo, and none may go while A is pinned.
fn churn(text: &mut String, times: u32) -> Result<(), Fail> {
    for _ in 0..times {
        text.push_str("B start 1000 [\"insert\",[1],1]\nB end\n")?;
        text.push_str("B start 1000 [\"remove\",[1]]\nB end\n")?;
    }
    Ok(())
}

#[test]
fn a_reader_that_stays_pinned_crowds_the_limbo(rt: HostRuntime) -> Result<(), Fail> {
    let mut input = String::new(rt.alloc());
    input.push_str("A start 1000 [\"get\",[1]]\nA until pin\n")?;
    churn(&mut input, 61)?;
    input.push_str("B start 1000 [\"insert\",[1],1]\nB end\nA end\n")?;
    input.push_str("B start 1000 [\"insert\",[1],1]\nB end\n")?;
    let mut expected = String::new(rt.alloc());
    expected.push_str("A at pin\n")?;
    for _ in 0..61 {
        expected.push_str("B [\"inserted\"] restarts 0\nB [\"removed\",1] restarts 0\n")?;
    }
    expected.push_str("B [\"refused\",12,\"Crowded\"] restarts 0\n")?;
    expected.push_str("A [\"absent\"] restarts 0\nB [\"inserted\"] restarts 0\n")?;
    check_steps(&rt, rt.alloc(), "u8", input.as_bytes(), expected.as_bytes());
    Ok(())
}
