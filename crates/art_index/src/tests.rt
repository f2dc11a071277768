//! What the words of a command line ask for, and the statuses and lines of what goes wrong.
ghost use Rattle.std.specs.Prelude.{◌≡◌, IfErr, IfOk, Some, None, codes, if◌then◌else◌};
ghost use Rattle.std.specs.Str.{bytes_eq};
ghost use Rattle.art_tools.specs.Settings.{RunsWith};
ghost use Rattle.art_tools.specs.declared.settings.SettingsFault.TheVariants.{NoMemory};

use art_server::Counted;
use art_tools::command_line::settings;
use art_tools::{
    AFTER_HELP, LOAD_HELP, RUN_HELP, SERVE_HELP, STEP_HELP, Settings, SettingsFault, TableSettings,
    execute,
};
use std::alloc::Global;
use std::io::{self, ErrorKind, Read, Write};
use std::net::{Net, TcpListener, TcpStream};
use std::process::Abort;
use std::sync::Wait;
use std::test::Fail;
use std::thread::Threads;

static CHOSEN: [&str; 4] = ["art_index", "run", "--schema=u16", "--n48=007"];

/// What `settings` promises, at words that are written out.
fn chosen_settings(alloc: Global) -> Result<Settings<'static>, SettingsFault>
    ensures ok { IfOk result (RunsWith (λ name. if bytes_eq name (codes "schema") then Some (codes "u16")
        else (if bytes_eq name (codes "n48") then Some (codes "007") else None))) }
    ensures err { IfErr result (λ fault. fault ≡ NoMemory) }
{
    settings(alloc, CHOSEN.as_slice())
}

/// The status that the words end with, what was written, and what was said of faults.
#[derive(Drop)]
struct Outcome {
    status: u8,
    output: Vec<u8>,
    faults: Vec<u8>,
}

fn run_on<H, R: Read>(rt: &H, alloc: Global, words: &[&str], reader: R) -> (Outcome, R)
where
    H: Abort + Threads + Wait + Sync + Net<Listener = TcpListener, Stream = TcpStream>,
{
    let mut reader = Counted::new(reader);
    let mut output = Vec::new(alloc);
    let mut faults = Vec::new(alloc);
    let status = execute(rt, alloc, words, &mut reader, &mut output, &mut faults);
    let ran = Outcome {
        status,
        output,
        faults,
    };
    (ran, reader.into_inner())
}

fn run_on_nothing<H>(rt: &H, alloc: Global, words: &[&str]) -> Outcome
where
    H: Abort + Threads + Wait + Sync + Net<Listener = TcpListener, Stream = TcpStream>,
{
    let (ran, _) = run_on(rt, alloc, words, b"".as_slice());
    ran
}

/// The settings are those of a run under the schema with these sizes and this start of counters.
fn check_settings(
    rt: &impl Abort,
    asked: Result<Settings<'_>, SettingsFault>,
    schema: &str,
    sizes: [u32; 5],
    counter_start: u64,
) {
    let Ok(Settings::Run(table)) = asked else {
        panic!(rt; "no settings of a run");
    };
    check_table(rt, table, schema, sizes, counter_start);
}

fn check_table(
    rt: &impl Abort,
    table: TableSettings<'_>,
    schema: &str,
    sizes: [u32; 5],
    counter_start: u64,
) {
    let asked = table.sizes;
    assert_eq!(rt; table.schema, schema);
    assert_eq!(rt;
        [asked.leaves, asked.n4, asked.n16, asked.n48, asked.n256],
        sizes
    );
    assert_eq!(rt; asked.counter_start, counter_start);
}

#[test]
fn each_option_is_what_is_given_or_its_default(rt: HostRuntime) {
    let alloc = rt.alloc();
    let defaults = [4096, 4096, 1024, 512, 128];
    let words = ["art_index", "run"];
    check_settings(&rt, settings(alloc, &words), "u64", defaults, 0);
    check_settings(
        &rt,
        chosen_settings(alloc),
        "u16",
        [4096, 4096, 1024, 7, 128],
        0,
    );
    let words = ["art_index", "run", "--schema", "u16"];
    check_settings(&rt, settings(alloc, &words), "u16", defaults, 0);
    for (option, sizes, counter_start) in [
        ("--leaves", [21, 4096, 1024, 512, 128], 0),
        ("--n4", [4096, 21, 1024, 512, 128], 0),
        ("--n16", [4096, 4096, 21, 512, 128], 0),
        ("--n48", [4096, 4096, 1024, 21, 128], 0),
        ("--n256", [4096, 4096, 1024, 512, 21], 0),
        ("--counter-start", defaults, 21),
    ] {
        let words = ["art_index", "run", option, "21"];
        check_settings(&rt, settings(alloc, &words), "u64", sizes, counter_start);
    }
}

#[test]
fn a_schedule_has_the_options_of_a_run(rt: HostRuntime) {
    let words = [
        "art_index",
        "step",
        "--n4=7",
        "--schema",
        "u8",
        "--counter-start",
        "3",
    ];
    let Ok(Settings::Step(table)) = settings(rt.alloc(), &words) else {
        panic!(&rt; "no settings of a schedule");
    };
    check_table(&rt, table, "u8", [4096, 7, 1024, 512, 128], 3);
}

#[test]
fn the_ends_of_each_range_are_in_it(rt: HostRuntime) {
    let alloc = rt.alloc();
    let words = [
        "art_index",
        "run",
        "--leaves=1",
        "--n4=1",
        "--n16=1",
        "--n48=1",
        "--n256=1",
        "--counter-start=0",
    ];
    check_settings(&rt, settings(alloc, &words), "u64", [1, 1, 1, 1, 1], 0);
    let words = [
        "art_index",
        "run",
        "--counter-start=4611686018427387896",
        "--n256=4096",
        "--n48=16384",
        "--n16=65536",
        "--n4=000000000000000000000000262144",
        "--leaves=1048576",
    ];
    let sizes = [1_048_576, 262_144, 65_536, 16_384, 4_096];
    check_settings(
        &rt,
        settings(alloc, &words),
        "u64",
        sizes,
        4_611_686_018_427_387_896,
    );
}

#[test]
fn faults_of_words_end_with_two(rt: HostRuntime) {
    for words in [
        [].as_slice(),
        &["art_index"],
        &["art_index", "frob"],
        &["art_index", "--schema", "u16", "run"],
        &["art_index", "run", "--schema"],
        &["art_index", "run", "--schema=a", "--schema=b"],
        &["art_index", "run", "--threads=2"],
        &["art_index", "load", "--schema=u64"],
        &["art_index", "load", "--threads=x", "--ops=1000001"],
        &["art_index", "load", "--keys=-1"],
        &["art_index", "serve"],
        &["art_index", "serve", "--port=x"],
        &["art_index", "serve", "--port=0", "--sessions=x"],
        &["art_index", "run", "--frob"],
        &["art_index", "run", "--version"],
        &["art_index", "run", "frob"],
        &["art_index", "run", "step"],
        &["art_index", "step", "run"],
        &["art_index", "step", "--frob"],
        &["art_index", "step", "--leaves=x"],
        &["art_index", "run", "--leaves"],
        &["art_index", "run", "--leaves", "x"],
        &["art_index", "run", "--leaves", ""],
        &["art_index", "run", "--leaves="],
        &["art_index", "run", "--n4=+5"],
        &["art_index", "run", "--n16", "-5"],
        &["art_index", "run", "--n16=-5"],
        &["art_index", "run", "--n48=5.0"],
        &["art_index", "run", "--n256=٥"],
        &["art_index", "run", "--counter-start=0x5"],
        &["art_index", "run", "--leaves", "5", "--leaves", "6"],
        &["art_index", "run", "--leaves=0", "--n4=x"],
        &["art_index", "run", "--schema=u24", "--n4=x"],
    ] {
        let ran = run_on_nothing(&rt, rt.alloc(), words);
        assert_eq!(rt; ran.status, 2, "at {words:?}");
        assert!(rt; ran.output.is_empty());
        assert!(rt; !ran.faults.is_empty());
    }
}

#[test]
fn help_ends_with_the_lines_and_the_statuses(rt: HostRuntime) {
    for (words, first, last) in [
        (
            ["art_index", "--help"].as_slice(),
            "An ordered index",
            AFTER_HELP,
        ),
        (&["art_index", "-h"], "An ordered index", AFTER_HELP),
        (&["art_index", "help"], "An ordered index", AFTER_HELP),
        (&["art_index", "help", "run"], "Answers the lines", RUN_HELP),
        (
            &["art_index", "run", "--help"],
            "Answers the lines",
            RUN_HELP,
        ),
        (&["art_index", "help", "step"], "Runs a schedule", STEP_HELP),
        (&["art_index", "help", "load"], "Makes commands", LOAD_HELP),
        (&["art_index", "load", "-h"], "Makes commands", LOAD_HELP),
        (
            &["art_index", "help", "serve"],
            "Answers the lines of",
            SERVE_HELP,
        ),
        (
            &["art_index", "serve", "-h"],
            "Answers the lines of",
            SERVE_HELP,
        ),
        (
            &["art_index", "step", "--help"],
            "Runs a schedule",
            STEP_HELP,
        ),
    ] {
        let ran = run_on_nothing(&rt, rt.alloc(), words);
        assert_eq!(rt; ran.status, 0, "at {words:?}");
        assert!(rt; ran.output.as_slice().starts_with(first.as_bytes()));
        let end = ran.output.as_slice().strip_suffix(b"\n".as_slice());
        let text = end.expect(&rt, "a last line feed");
        assert!(rt; text.ends_with(last.as_bytes()));
        assert!(rt; ran.faults.is_empty());
    }
}

#[test]
fn help_of_run_and_of_step_lists_their_options(rt: HostRuntime) -> Result<(), Fail> {
    let run = run_on_nothing(&rt, rt.alloc(), &["art_index", "run", "--help"]);
    let run = std::str::from_utf8(run.output.as_slice())?;
    let step = run_on_nothing(&rt, rt.alloc(), &["art_index", "step", "--help"]);
    let step = std::str::from_utf8(step.output.as_slice())?;
    for option in [
        "--schema <TEXT>",
        "--leaves <NUMBER>",
        "--n4 <NUMBER>",
        "--n16 <NUMBER>",
        "--n48 <NUMBER>",
        "--n256 <NUMBER>",
        "--counter-start <NUMBER>",
    ] {
        assert!(rt; run.contains(option), "{option}");
        assert!(rt; step.contains(option), "{option}");
    }
    Ok(())
}

/// The words end with this status, and this is written and said of faults.
fn check_told<H>(rt: &H, alloc: Global, words: &[&str], status: u8, output: &str, faults: &str)
where
    H: Abort + Threads + Wait + Sync + Net<Listener = TcpListener, Stream = TcpStream>,
{
    let ran = run_on_nothing(rt, alloc, words);
    assert_eq!(rt; ran.status, status);
    assert_eq!(rt; ran.output.as_slice(), output.as_bytes());
    assert_eq!(rt; ran.faults.as_slice(), faults.as_bytes());
}

#[test]
fn the_version_is_the_programs(rt: HostRuntime) {
    for word in ["--version", "-V"] {
        let words = ["art_index", word];
        check_told(&rt, rt.alloc(), &words, 0, "art_index 0.1.0\n", "");
    }
}

#[test]
fn a_value_that_is_no_number_is_named(rt: HostRuntime) {
    let expected = "error: invalid value 'x' for '--leaves <NUMBER>': not a row of digits\n\n\
        Usage: art_index <COMMAND>\n\nFor more information, try '--help'.\n";
    let words = ["art_index", "run", "--n4=0", "--leaves=x"];
    check_told(&rt, rt.alloc(), &words, 2, "", expected);
}

#[test]
fn a_number_out_of_its_range_ends_with_three(rt: HostRuntime) {
    for option in [
        "--leaves=0",
        "--leaves=1048577",
        "--leaves=4294967297",
        "--leaves=18446744073709551617",
        "--leaves=123456789012345678901234567890",
        "--n4=0",
        "--n4=262145",
        "--n16=0",
        "--n16=65537",
        "--n48=0",
        "--n48=16385",
        "--n256=0",
        "--n256=4097",
        "--counter-start=4611686018427387897",
        "--counter-start=123456789012345678901234567890",
    ] {
        let words = ["art_index", "run", "--schema", "u24", option];
        check_told(
            &rt,
            rt.alloc(),
            &words,
            3,
            "",
            "art_index: refused 24 BadConfig\n",
        );
    }
}

#[test]
fn a_schema_that_is_none_ends_with_three(rt: HostRuntime) {
    for (option, expected) in [
        ("--schema=", "art_index: refused 20 NoColumns\n"),
        (
            "--schema=u8,u8,u8,u8,u8,u8,u8,u8,u8",
            "art_index: refused 21 TooManyColumns\n",
        ),
        ("--schema=u8,u24", "art_index: refused 23 BadColumn\n"),
        ("--schema=u8--", "art_index: refused 23 BadColumn\n"),
        (
            "--schema=text24,text7",
            "art_index: refused 22 KeyTooWide\n",
        ),
    ] {
        let words = ["art_index", "run", option];
        check_told(&rt, rt.alloc(), &words, 3, "", expected);
    }
}

/// Gives one byte a read, and fails at the read of that number, if there is one.
#[derive(Drop)]
struct Dribble {
    reads: u64,
    fails_at: u64,
}

impl Read for Dribble {
    fn read(&mut self, buf: &mut [u8]) -> io::Result<usize> {
        self.reads = self.reads.saturating_add(1);
        if self.reads == self.fails_at {
            return Err(io::Error::from(ErrorKind::Interrupted));
        }
        if buf.is_empty() {
            return Ok(0);
        }
        buf[0] = b'x';
        Ok(1)
    }
}

/// Takes no byte.
#[derive(Drop)]
struct Closed;

impl Write for Closed {
    fn write(&mut self, _buf: &[u8]) -> io::Result<usize> {
        Err(io::Error::from(ErrorKind::BrokenPipe))
    }

    fn flush(&mut self) -> io::Result<()> {
        Ok(())
    }
}

#[test]
fn a_read_that_fails_ends_with_one_and_a_million_reads_with_five(rt: HostRuntime) {
    for (fails_at, status, reads, expected) in [
        (3, 1, 3, "art_index: read failed\n"),
        (0, 5, 1_000_000, "art_index: reads used up\n"),
    ] {
        let input = Dribble { reads: 0, fails_at };
        let (ran, input) = run_on(&rt, rt.alloc(), &["art_index", "run"], input);
        assert_eq!(rt; ran.status, status);
        assert_eq!(rt; ran.faults.as_slice(), expected.as_bytes());
        assert_eq!(rt; input.reads, reads);
    }
}

#[test]
fn a_write_that_fails_ends_with_one(rt: HostRuntime) -> Result<(), Fail> {
    let mut reader = Counted::new(b"{\n".as_slice());
    let mut faults = Vec::new(rt.alloc());
    let words = ["art_index", "run"];
    let status = execute(
        &rt,
        rt.alloc(),
        &words,
        &mut reader,
        &mut Closed,
        &mut faults,
    );
    assert_eq!(rt; status, 1);
    assert_eq!(rt; faults.as_slice(), b"art_index: write failed\n".as_slice());
    Ok(())
}
