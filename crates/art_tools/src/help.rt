//! What help says after the options, and the version.

/// What `--version` prints after the program's name.
pub(crate) const VERSION: &str = "0.1.0";

// A text before the statuses and one after them.
macro_rules! with_statuses {
    ($($before:literal),+; $after:literal) => {
        concat!(
            $($before,)+
            "\
Statuses:
  0  the input ended, whatever the replies were; also help and the version
  1  a read or a write failed, or was interrupted
  2  the command line is wrong
  3  a number is out of its range, or the schema is wrong
  4  there was no memory
  5  a million reads were made, and the input had not ended
  6  a line of a schedule is wrong; which one is told
  7  there is no listener, or a connection could not be accepted

",
            $after
        )
    };
}

// The numbers of a subcommand's table, then what stands after them, the statuses and its examples.
macro_rules! sizes_help {
    ($own:literal, $($after:literal),+; $examples:literal) => {
        with_statuses!(
            "\
Numbers, each a row of digits, and what they are where they are left out:
",
            $own,
            "  --leaves                   1 to 1048576, or 4096: at most so many rows stand
  --n4                       1 to 262144, or 4096: nodes of at most 4 children
  --n16                      1 to 65536, or 1024: nodes of at most 16 children
  --n48                      1 to 16384, or 512: nodes of at most 48 children
  --n256                     1 to 4096, or 128: nodes of at most 256 children
  --counter-start            0 to 4611686018427387896, or 0: where the anchor's counter starts

",
            $($after),+;
            $examples
        )
    };
}

// The numbers and the columns of a subcommand's table, then its lines, the statuses and its examples.
macro_rules! table_help {
    ($own:literal, $lines:literal, $examples:literal) => {
        sizes_help!(
            $own,
            "\
Columns of a schema, one to eight names joined by commas:
  bool                       false, true
  u8 u16 u32 u64             whole numbers from 0
  i8 i16 i32 i64             whole numbers, negative ones too
  text1 to text24            texts of at most so many bytes
  u32-, and so each kind     the same values in reverse order, the greatest first

",
            $lines;
            $examples
        )
    };
}

/// The statuses, and examples of the subcommands.
pub const AFTER_HELP: &str = with_statuses!(
    "\
run answers one command a line; step shows how commands of several passes come between one
another, step by step; serve answers many clients at once; load makes commands by many threads.
The help of each has its lines, the columns and the numbers.

";
    "\
Examples:
  printf '[\"insert\",[\"a\",5],9]\\n[\"get\",[\"a\",5]]\\n' | art_index run --schema text8,u8
  printf 'A start 1000 [\"insert\",[1],1]\\nA until commit\\nA end\\n' | art_index step --schema u8
  art_index serve --port 7411 --workers 8 --sessions 100
  art_index load --threads 4 --ops 100000"
);

/// The numbers of a run, the kinds of column, the lines and their replies, the statuses and examples.
pub const RUN_HELP: &str = table_help!(
    "",
    "\
Lines on standard input, and the reply to each on standard output:
  [\"insert\",[5],9]           [\"inserted\"], or [\"present\",7] where the row stands with 7
  [\"remove\",[5]]             [\"removed\",9], or [\"absent\"]
  [\"get\",[5]]                [\"found\",9], or [\"absent\"]
  [\"scan\",[0],[9],2]         [\"rows\",[[[1],7],[[5],9]],true]: the first rows from 0 to 9, at most 2,
                             and whether they are 2
  a line that is refused     [\"refused\",1,\"BadLine\"] and the like; nothing changes

",
    "\
Examples, of which the last lists the newest row first:
  printf '[\"insert\",[\"a\",5],9]\\n[\"get\",[\"a\",5]]\\n' | art_index run --schema text8,u8
  printf '[\"insert\",[1],9]\\n[\"insert\",[2],9]\\n' | art_index run --leaves 1
  printf '[\"insert\",[1],9]\\n[\"scan\",[0],[9],100]\\n' | art_index run
  printf '[\"insert\",[1],9]\\n[\"insert\",[2],9]\\n[\"scan\",[2],[1],1]\\n' | art_index run --schema u32-"
);

/// The numbers of a schedule's table, the kinds of column, the lines of a schedule and what they print, the statuses and an example.
pub const STEP_HELP: &str = table_help!(
    "",
    "\
Lines on standard input, each of one pass, A to H, and what they print on standard output:
  A start 1000 [\"get\",[5]]   starts the command of a line of run, in 1000 turns; nothing
  A until read 3             makes steps until the 3rd read: A at read
  A until commit             makes steps until the next commit: A at commit
  A step 6                   makes 6 steps: A stepped
  A end                      makes all steps that are left: A [\"absent\"] restarts 0

A command that ends before its line does prints as at its end. At the end of the input what is
under way is run to its end, from A to H. A line that is none of these ends the schedule.

Kinds of step:
  begin read check upgrade write commit release claim take give epoch pin advance watch anchor
  event                      a step of any kind that makes the event of its command

",
    "\
Example:
  printf 'A start 1000 [\"insert\",[1],1]\\nA until commit\\nA end\\n' | art_index step --schema u8
  prints  A at commit
          A [\"inserted\"] restarts 0"
);

/// The numbers of a load, what it makes and prints, the statuses and an example.
pub const LOAD_HELP: &str = sizes_help!(
    "\
  --threads                  1 to 32, or 2
  --ops                      0 to 1000000, or 1000: commands of each thread
  --seed                     0 to 18446744073709551615, or 1: where the drawing of keys begins
  --keys                     1 to 18446744073709551615, or 1000: how many keys there are
",
    "\
Thread T, counted from 0, draws at its step I the key (seed + 13 * T + 7 * I) mod 2^64 mod keys. Of
four rounds of three steps two insert it, one removes it and one gets it. What is printed says how
many replies of each kind there were, and how many rows at the end:
  inserted 5                 rows that were added
  present 1                  inserts that found a row
  removed 2                  rows that were taken out
  absent 1                   removals and gets that found no row
  found 3                    gets that found one
  refused 0                  commands that were refused; try fewer threads, or larger pools
  rows 3                     those inserted less those removed

";
    "\
Example:
  art_index load --threads 4 --ops 100000 --keys 10000 --leaves 65536"
);

/// The numbers of a server, the kinds of column, what clients write, the statuses and examples.
pub const SERVE_HELP: &str = table_help!(
    "\
  --port                     1 to 65535: the port of 127.0.0.1 to listen on; it must be given
  --workers                  1 to 32, or 2: so many clients are answered at once
  --sessions                 0 to 4294967295, or 1: after so many clients it ends
",
    "\
Lines of a client, and replies, are those of run. Each worker answers one client after another, from
its first line until it ends its input or breaks off. Standard error says where it listens; once all
sessions have ended, standard output says how many: served 2.

",
    "\
Examples, in another terminal, of a server that was started by
  art_index serve --port 7411 --sessions 2 --schema u32
are:
  printf '[\"insert\",[5],9]\\n[\"get\",[5]]\\n' | nc -N 127.0.0.1 7411
  python3 -c '
import socket
client = socket.create_connection((\"127.0.0.1\", 7411)).makefile(\"rw\")
print(\"[\\\"get\\\",[5]]\", file=client, flush=True)
print(client.readline())'"
);
