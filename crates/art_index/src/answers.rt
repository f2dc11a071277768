//! What a run answers to the lines of worked examples.
use art_server::Counted;
use art_tools::execute;
use std::alloc::Global;
use std::net::{Net, TcpListener, TcpStream};
use std::process::Abort;
use std::sync::Wait;
use std::test::Fail;
use std::thread::Threads;

/// A run with at most so many rows under the schema answers its input so, and ends well.
fn check_run<H>(rt: &H, alloc: Global, schema: &str, leaves: &str, input: &[u8], expected: &str)
where
    H: Abort + Threads + Wait + Sync + Net<Listener = TcpListener, Stream = TcpStream>,
{
    let words = ["art_index", "run", "--schema", schema, "--leaves", leaves];
    let mut output = Vec::new(alloc);
    let mut faults = Vec::new(alloc);
    let status = execute(
        rt,
        alloc,
        &words,
        &mut Counted::new(input),
        &mut output,
        &mut faults,
    );
    assert_eq!(rt; status, 0);
    assert_eq!(rt; output.as_slice(), expected.as_bytes(), "under {schema}");
    assert_eq!(rt; faults.as_slice(), b"".as_slice());
}

#[test]
fn worked_examples(rt: HostRuntime) {
    for (schema, input, expected) in [
        (
            "u64",
            b"[\"insert\",[5],9]\n[\"insert\",[5],10]\n[\"get\",[5]]\n".as_slice(),
            "[\"inserted\"]\n[\"present\",9]\n[\"found\",9]\n",
        ),
        (
            "text8",
            b"[\"insert\",[\"a\"],9]\n[\"remove\",[\"a\"]]\n[\"remove\",[\"a\"]]\n[\"get\",[\"a\"]]\n",
            "[\"inserted\"]\n[\"removed\",9]\n[\"absent\"]\n[\"absent\"]\n",
        ),
        (
            "bool,i8",
            b"[\"insert\",[true,-128],1]\n[\"insert\",[false,127],2]\n\
                [\"get\",[true,-128]]\n[\"get\",[true]]\n[\"get\",[1,0]]\n[\"get\",[true,-129]]\n",
            "[\"inserted\"]\n[\"inserted\"]\n[\"found\",1]\n\
                [\"refused\",4,\"WrongColumns\"]\n[\"refused\",5,\"WrongType\"]\n\
                [\"refused\",6,\"OutOfRange\"]\n",
        ),
        (
            "u8",
            b"[\"get\",[1.0]]\n[\"get\",[1e2]]\n[\"get\",[-1]]\n\
                [\"get\",[18446744073709551616]]\n[\"get\",[1e999]]\n[\"get\",[255]]\n",
            "[\"refused\",5,\"WrongType\"]\n[\"refused\",5,\"WrongType\"]\n\
                [\"refused\",6,\"OutOfRange\"]\n[\"refused\",5,\"WrongType\"]\n\
                [\"refused\",1,\"BadLine\"]\n[\"absent\"]\n",
        ),
        (
            "text3",
            b"[\"insert\",[\"abc\"],1]\n[\"get\",[\"abcd\"]]\n[\"get\",[\"\\ud83d\\ude00\"]]\n\
                [\"insert\",[\"a\\u0000\"],2]\n[\"get\",[\"a\\u0000\"]]\n[\"get\",[\"a\"]]\n\
                [\"get\",[\"\\ud800\"]]\n[\"get\",[\"\xff\"]]\n\
                [\"get\",[\"aaaaaaaaaaaaaaaaaaaaaaaaa\"]]\n[\"get\",[3]]\n",
            "[\"inserted\"]\n[\"refused\",7,\"TextTooLong\"]\n\
                [\"refused\",7,\"TextTooLong\"]\n[\"inserted\"]\n[\"found\",2]\n[\"absent\"]\n\
                [\"refused\",1,\"BadLine\"]\n[\"refused\",1,\"BadLine\"]\n\
                [\"refused\",7,\"TextTooLong\"]\n[\"refused\",5,\"WrongType\"]\n",
        ),
        (
            "u32,i16,text8",
            b"[\"insert\",[1,-1,\"a\"],7]\n[\"get\",[1,-1,\"a\"]]\n[\"get\",[-1,40000,\"a\"]]\n\
                [\"get\",[1,true,40000]]\n[\"get\",[1,40000,\"aaaaaaaaa\"]]\n[\"get\",[-1,null,3]]\n",
            "[\"inserted\"]\n[\"found\",7]\n[\"refused\",6,\"OutOfRange\"]\n\
                [\"refused\",5,\"WrongType\"]\n[\"refused\",6,\"OutOfRange\"]\n\
                [\"refused\",5,\"WrongType\"]\n",
        ),
    ] {
        check_run(&rt, rt.alloc(), schema, "4096", input, expected);
    }
}

#[test]
fn the_row_after_as_many_as_there_are_leaves_is_refused(rt: HostRuntime) {
    let input = b"[\"insert\",[1],7]\n[\"insert\",[2],8]\n[\"insert\",[3],9]\n\
        [\"insert\",[1],9]\n"
        .as_slice();
    let expected = "[\"inserted\"]\n[\"inserted\"]\n[\"refused\",11,\"Full\"]\n[\"present\",7]\n";
    check_run(&rt, rt.alloc(), "u8", "2", input, expected);
}

#[test]
fn lines_that_cannot_be_served_have_their_refusals(rt: HostRuntime) -> Result<(), Fail> {
    let mut input = Vec::new(rt.alloc());
    input.extend_from_slice(b"\n{\n[\"get\"]\n")?;
    input.extend_from_slice(&[b'x'; 4097])?;
    input.extend_from_slice(b"\n[\"get\",[5]]\n[\"get\",[256]]\n[\"get\",[7]]")?;
    let expected = "[\"refused\",1,\"BadLine\"]\n[\"refused\",1,\"BadLine\"]\n\
        [\"refused\",3,\"BadCommand\"]\n[\"refused\",2,\"LineTooLong\"]\n[\"absent\"]\n\
        [\"refused\",6,\"OutOfRange\"]\n[\"absent\"]\n";
    check_run(&rt, rt.alloc(), "u8", "4096", input.as_slice(), expected);
    Ok(())
}
