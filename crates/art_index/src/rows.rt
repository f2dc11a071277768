//! What a run answers on the tree: nodes that grow and shrink, prefixes, small pools, counters at their end, scans.
use art_server::Counted;
use art_tools::execute;
use std::alloc::Global;
use std::net::{Net, TcpListener, TcpStream};
use std::process::Abort;
use std::sync::Wait;
use std::thread::Threads;

/// A run with these two options answers its input so, and ends well.
fn check_run<H>(rt: &H, alloc: Global, options: [&str; 2], input: &[u8], expected: &[u8])
where
    H: Abort + Threads + Wait + Sync + Net<Listener = TcpListener, Stream = TcpStream>,
{
    let words = ["art_index", "run", options[0], options[1]];
    check_words(rt, alloc, &words, input, expected);
}

/// These words answer their input so, and end well.
fn check_words<H>(rt: &H, alloc: Global, words: &[&str], input: &[u8], expected: &[u8])
where
    H: Abort + Threads + Wait + Sync + Net<Listener = TcpListener, Stream = TcpStream>,
{
    let mut output = Vec::new(alloc);
    let mut faults = Vec::new(alloc);
    let mut reader = Counted::new(input);
    let status = execute(rt, alloc, words, &mut reader, &mut output, &mut faults);
    assert_eq!(rt; status, 0);
    assert_eq!(rt; output.as_slice(), expected);
    assert_eq!(rt; faults.as_slice(), b"".as_slice());
}

/// The lines of all rows of one byte: how each begins, and how it ends, for inserts where its value comes last.
fn add_lines(
    rt: &impl Abort,
    alloc: Global,
    text: &mut String,
    front: &str,
    middle: &str,
    with_value: bool,
) {
    for number in 0..256_u32 {
        let line = if with_value {
            format!(in alloc; "{front}{number}{middle}{number}]\n")
        } else {
            format!(in alloc; "{front}{number}{middle}]\n")
        };
        text.push_str(line.expect(rt, "room for a line").as_str())
            .expect(rt, "room for the lines");
    }
}

/// The first node grows at its 5th, 17th and 49th row, and shrinks on the way down.
#[test]
fn nodes_grow_to_256_rows_and_shrink_to_none(rt: HostRuntime) {
    let alloc = rt.alloc();
    let mut input = String::new(alloc);
    add_lines(&rt, alloc, &mut input, "[\"insert\",[", "],", true);
    add_lines(&rt, alloc, &mut input, "[\"remove\",[", "]", false);
    let mut expected = String::new(alloc);
    for _ in 0..256 {
        expected
            .push_str("[\"inserted\"]\n")
            .expect(&rt, "room for a reply");
    }
    add_lines(&rt, alloc, &mut expected, "[\"removed\",", "", false);
    let options = ["--schema=u8", "--leaves=256"];
    check_run(&rt, alloc, options, input.as_bytes(), expected.as_bytes());
}

#[test]
fn a_prefix_is_split_and_merged(rt: HostRuntime) {
    let input = b"[\"insert\",[257],1]\n[\"insert\",[258],2]\n[\"insert\",[515],3]\n\
        [\"get\",[257]]\n[\"get\",[258]]\n[\"get\",[515]]\n\
        [\"remove\",[515]]\n[\"get\",[257]]\n[\"get\",[258]]\n";
    let expected = b"[\"inserted\"]\n[\"inserted\"]\n[\"inserted\"]\n\
        [\"found\",1]\n[\"found\",2]\n[\"found\",3]\n\
        [\"removed\",3]\n[\"found\",1]\n[\"found\",2]\n";
    check_run(
        &rt,
        rt.alloc(),
        ["--schema=u16", "--leaves=9"],
        input,
        expected,
    );
}

#[test]
fn a_third_row_finds_no_leaf_of_two(rt: HostRuntime) {
    let input = b"[\"insert\",[1],1]\n[\"insert\",[2],2]\n[\"insert\",[3],3]\n\
        [\"insert\",[1],9]\n[\"get\",[1]]\n[\"get\",[2]]\n";
    let expected = b"[\"inserted\"]\n[\"inserted\"]\n[\"refused\",11,\"Full\"]\n\
        [\"present\",1]\n[\"found\",1]\n[\"found\",2]\n";
    check_run(
        &rt,
        rt.alloc(),
        ["--schema=u8", "--leaves=2"],
        input,
        expected,
    );
}

#[test]
fn an_anchor_at_the_end_of_its_counter_is_not_changed(rt: HostRuntime) {
    let input = b"[\"insert\",[1],1]\n[\"get\",[1]]\n";
    let expected = b"[\"refused\",13,\"Exhausted\"]\n[\"absent\"]\n";
    let options = ["--schema=u8", "--counter-start=4611686018427387896"];
    check_run(&rt, rt.alloc(), options, input, expected);
}

/// An anchor that was locked once, and is at its end, is not changed any more; its row is read as ever.
#[test]
fn an_anchor_at_its_end_after_one_row_is_read_and_not_changed(rt: HostRuntime) {
    let input = b"[\"insert\",[1],1]\n[\"insert\",[2],2]\n[\"insert\",[1],5]\n\
        [\"remove\",[1]]\n[\"get\",[1]]\n";
    let expected = b"[\"inserted\"]\n[\"refused\",13,\"Exhausted\"]\n[\"present\",1]\n\
        [\"refused\",13,\"Exhausted\"]\n[\"found\",1]\n";
    let options = ["--schema=u8", "--counter-start=4611686018427387895"];
    check_run(&rt, rt.alloc(), options, input, expected);
}

/// A node begins its counter anew, and the anchor's counts each of its locks: three, or two before it is at its end.
#[test]
fn a_prefix_is_split_while_a_counter_is_left(rt: HostRuntime) {
    let input = b"[\"insert\",[257],1]\n[\"insert\",[258],1]\n[\"insert\",[259],1]\n\
        [\"insert\",[260],1]\n[\"insert\",[515],1]\n[\"get\",[260]]\n";
    let five = b"[\"inserted\"]\n[\"inserted\"]\n[\"inserted\"]\n[\"inserted\"]\n\
        [\"inserted\"]\n[\"found\",1]\n";
    let four = b"[\"inserted\"]\n[\"inserted\"]\n[\"inserted\"]\n[\"inserted\"]\n\
        [\"refused\",13,\"Exhausted\"]\n[\"found\",1]\n";
    let options = ["--schema=u16", "--counter-start=4611686018427387893"];
    check_run(&rt, rt.alloc(), options, input, five);
    let options = ["--schema=u16", "--counter-start=4611686018427387894"];
    check_run(&rt, rt.alloc(), options, input, four);
}

/// The one node of 4 children grows to the one of 16, and is free for a prefix; a second prefix finds none. Removals want no number that is
/// not there.
#[test]
fn pools_of_one_node_each(rt: HostRuntime) {
    let words = [
        "art_index",
        "run",
        "--schema",
        "u16",
        "--n4",
        "1",
        "--n16",
        "1",
    ];
    let input = b"[\"insert\",[1],1]\n[\"insert\",[2],2]\n[\"insert\",[3],3]\n\
        [\"insert\",[4],4]\n[\"insert\",[5],5]\n[\"insert\",[257],6]\n[\"insert\",[258],7]\n\
        [\"remove\",[5]]\n[\"remove\",[4]]\n[\"remove\",[3]]\n[\"remove\",[2]]\n\
        [\"get\",[1]]\n[\"get\",[257]]\n";
    let expected = b"[\"inserted\"]\n[\"inserted\"]\n[\"inserted\"]\n\
        [\"inserted\"]\n[\"inserted\"]\n[\"inserted\"]\n[\"refused\",11,\"Full\"]\n\
        [\"removed\",5]\n[\"removed\",4]\n[\"removed\",3]\n[\"removed\",2]\n\
        [\"found\",1]\n[\"found\",6]\n";
    check_words(&rt, rt.alloc(), &words, input, expected);
}

#[test]
fn scans_list_the_rows_of_their_range(rt: HostRuntime) {
    let input = b"[\"insert\",[1],1]\n[\"insert\",[2],2]\n\
        [\"scan\",[1],[2],2]\n[\"scan\",[3],[255],100]\n[\"insert\",[3],3]\n\
        [\"scan\",[9],[0],5]\n[\"scan\",[0],[9],0]\n[\"scan\",[0],[9],2]\n[\"scan\",[0],[9],100]\n";
    let expected = b"[\"inserted\"]\n[\"inserted\"]\n\
        [\"rows\",[[[1],1],[[2],2]],true]\n[\"rows\",[],false]\n[\"inserted\"]\n\
        [\"refused\",8,\"BadRange\"]\n[\"refused\",9,\"BadLimit\"]\n\
        [\"rows\",[[[1],1],[[2],2]],true]\n[\"rows\",[[[1],1],[[2],2],[[3],3]],false]\n";
    check_run(
        &rt,
        rt.alloc(),
        ["--schema=u8", "--leaves=9"],
        input,
        expected,
    );
}

#[test]
fn scans_of_a_column_that_descends_list_the_greatest_first(rt: HostRuntime) {
    let input = b"[\"insert\",[1],1]\n[\"insert\",[2],2]\n[\"insert\",[3],3]\n\
        [\"scan\",[3],[1],2]\n[\"scan\",[1],[3],2]\n";
    let expected = b"[\"inserted\"]\n[\"inserted\"]\n[\"inserted\"]\n\
        [\"rows\",[[[3],3],[[2],2]],true]\n[\"refused\",8,\"BadRange\"]\n";
    check_run(
        &rt,
        rt.alloc(),
        ["--schema=u8-", "--leaves=9"],
        input,
        expected,
    );
}

#[test]
fn scans_of_two_columns_are_in_the_order_of_tuples(rt: HostRuntime) {
    let input = b"[\"insert\",[true,-128],1]\n[\"insert\",[false,127],2]\n\
        [\"scan\",[false,-128],[true,127],100]\n[\"get\",[true]]\n[\"get\",[1,0]]\n";
    let expected = b"[\"inserted\"]\n[\"inserted\"]\n\
        [\"rows\",[[[false,127],2],[[true,-128],1]],false]\n\
        [\"refused\",4,\"WrongColumns\"]\n[\"refused\",5,\"WrongType\"]\n";
    check_run(
        &rt,
        rt.alloc(),
        ["--schema=bool,i8", "--leaves=9"],
        input,
        expected,
    );
}
