//! Scans in sessions.
use crate::clients::{SIZES, check_alone};
use art_server::art_table::Config;
use std::alloc::Global;
use std::process::Abort;

/// A session on a new table of these columns, with three leaves, says this.
fn check_scans(rt: &impl Abort, alloc: Global, columns: &str, said: &str, want: &str) {
    let config = Config { leaves: 3, ..SIZES };
    check_alone(rt, alloc, columns, config, said, want);
}

#[test]
fn lists_the_rows_of_its_range_up_to_its_limit(rt: HostRuntime) {
    let said = "[\"insert\",[1],1]\n[\"insert\",[2],2]\n[\"scan\",[1],[2],2]\n\
        [\"scan\",[3],[255],100]\n[\"insert\",[3],3]\n[\"scan\",[0],[9],2]\n\
        [\"scan\",[2],[3],100]\n[\"remove\",[2]]\n[\"scan\",[0],[255],100]\n";
    let want = "[\"inserted\"]\n[\"inserted\"]\n[\"rows\",[[[1],1],[[2],2]],true]\n\
        [\"rows\",[],false]\n[\"inserted\"]\n[\"rows\",[[[1],1],[[2],2]],true]\n\
        [\"rows\",[[[2],2],[[3],3]],false]\n[\"removed\",2]\n\
        [\"rows\",[[[1],1],[[3],3]],false]\n";
    check_scans(&rt, rt.alloc(), "u8", said, want);
}

#[test]
fn lists_tuples_of_two_columns_in_order(rt: HostRuntime) {
    let said = "[\"insert\",[true,-128],1]\n[\"insert\",[false,127],2]\n\
        [\"scan\",[false,-128],[true,127],100]\n";
    let want = "[\"inserted\"]\n[\"inserted\"]\n\
        [\"rows\",[[[false,127],2],[[true,-128],1]],false]\n";
    check_scans(&rt, rt.alloc(), "bool,i8", said, want);
}

#[test]
fn a_refused_scan_has_its_fault(rt: HostRuntime) {
    let said = "[\"insert\",[1],1]\n[\"insert\",[2],2]\n[\"insert\",[3],3]\n\
        [\"scan\",[9],[0],5]\n[\"scan\",[0],[9],0]\n[\"scan\",[0],[9],101]\n\
        [\"scan\",[9],[0],0]\n[\"scan\",[256],[9],5]\n[\"scan\",[0],[9,9],5]\n\
        [\"scan\",[256],[true],5]\n";
    let want = "[\"inserted\"]\n[\"inserted\"]\n[\"inserted\"]\n\
        [\"refused\",8,\"BadRange\"]\n[\"refused\",9,\"BadLimit\"]\n[\"refused\",9,\"BadLimit\"]\n\
        [\"refused\",8,\"BadRange\"]\n[\"refused\",6,\"OutOfRange\"]\n\
        [\"refused\",4,\"WrongColumns\"]\n[\"refused\",6,\"OutOfRange\"]\n";
    check_scans(&rt, rt.alloc(), "u8", said, want);
}

/// What is wrong with a line comes before what is wrong with a tuple in the table.
#[test]
fn a_scan_of_another_shape_is_no_command(rt: HostRuntime) {
    let said = "[\"scan\",[0],[9]]\n[\"scan\",[0],9,1]\n[\"scan\",[0],[9],-1]\n\
        [\"scan\",[0],[9],1.5]\n[\"scan\",[256],[\"aaaaaaaaaaaaaaaaaaaaaaaaa\"],5]\n";
    let want = "[\"refused\",3,\"BadCommand\"]\n[\"refused\",3,\"BadCommand\"]\n\
        [\"refused\",3,\"BadCommand\"]\n[\"refused\",3,\"BadCommand\"]\n\
        [\"refused\",7,\"TextTooLong\"]\n";
    check_scans(&rt, rt.alloc(), "u8", said, want);
}
