use flk_io::{MemShelf, MemSink, OutOfMemory, Words};
use flk_top::{Gate, run};
use std::alloc::Global;
use std::test::Fail;
use std::thread::Threads;

// The first four lines of a configuration of 4800 records, and the others.
const FRONT: &str = "LAB,DAQ,1999\r\n1,1A,0D\r\n1,U,A,,V,0.01,0,0,-32767,32767,1,1,P\r\n50\r\n";

const BACK: &str =
    "1\r\n2400,4800\r\n12/03/2021,09:15:00.000000\r\n12/03/2021,09:15:00.000000\r\nBINARY\r\n1\r\n";

/// A gate at which nothing is done.
pub struct Open;

impl Gate for Open {
    ghost use Rattle.std.specs.Prelude.{true};

    ghost admits = { λ gate phase. true };

    fn enter(&self, phase: usize) {
        let _ = phase;
    }
}

// So many samples, in turn 24 of 230 V and 24 of -230 V.
pub fn wave(alloc: Global, records: u32) -> Result<Vec<u8>, OutOfMemory> {
    let mut bytes = Vec::new(alloc);
    for k in 0..records {
        let value: i16 = if k / 24 % 2 == 0 { 23000 } else { -23000 };
        bytes.extend_from_slice(&(k + 1).to_le_bytes())?;
        bytes.extend_from_slice(&[0; 4])?;
        bytes.extend_from_slice(&value.to_le_bytes())?;
    }
    Ok(bytes)
}

pub fn square_wave(alloc: Global) -> Result<Vec<u8>, OutOfMemory> {
    wave(alloc, 4800)
}

// The configuration with one part of its text replaced by another.
pub fn varied(alloc: Global, old: &str, new: &str) -> Result<String, OutOfMemory> {
    let mut whole = String::from_str(alloc, FRONT)?;
    whole.push_str(BACK)?;
    let mut text = String::new(alloc);
    if let Some((before, after)) = whole.as_str().split_once(old) {
        for part in [before, new, after] {
            text.push_str(part)?;
        }
    }
    Ok(text)
}

// Under X the configuration, under Z the same one in other bytes (lines that end in LF alone, and 0.010 for 0.01),
// under V that of 4800 samples a second, and under Y the data of all.
fn filled_shelf(alloc: Global) -> Result<MemShelf, OutOfMemory> {
    let mut other = String::new(alloc);
    for part in varied(alloc, ",0.01,", ",0.010,")?.as_str().split('\r') {
        other.push_str(part)?;
    }
    let mut shelf = MemShelf::new(alloc);
    shelf.put("X", varied(alloc, "", "")?.as_bytes())?;
    shelf.put("Z", other.as_bytes())?;
    let faster = varied(alloc, "2400,4800", "4800,4800")?;
    shelf.put("V", faster.as_bytes())?;
    shelf.put("Y", &square_wave(alloc)?)?;
    Ok(shelf)
}

pub fn words_of(alloc: Global, line: &str) -> Result<Words, OutOfMemory> {
    let mut words = Words::new(alloc);
    for word in line.split_ascii_whitespace() {
        words.push(word)?;
    }
    Ok(words)
}

const EXACT: &str =
    "levels channel 1\nhalf-periods 199\nleast 1.000000000 to 1.000000000\ngreatest 1.000000000 to 1.000000000\n";

const EXACT_AT_4800: &str =
    "levels channel 1\nhalf-periods 199\nleast 0.707106781 to 0.707106781\ngreatest 0.707106781 to 0.707106781\n";

pub const UNCERTAIN: &str =
    "levels channel 1\nhalf-periods 199\nleast 0.999999995 to 1.000000004\ngreatest 0.999999995 to 1.000000004\n";

const TABLES_230: &str = "section 1 4294686209 -4294686209 0 -4294405123 0
gain 1 8589372418 15280 1
section 2 8788291 17576582 8788291 -8356192996 4096378865
gain 2 10805343346 924 178
section 3 8449932 16899864 8449932 -8034470111 3773302543
gain 3 4725168167 420 95
section 4 8266186 16532372 8266186 -7859758383 3597855830
gain 4 4359395411 396 95
section 5 89011712 0 -89011712 -8497168044 4204641676
gain 5 10987079482 8109 439
section 6 2311656171 -2297900156 0 -4281211281 0
gain 6 4294967296 625 1
section 7 119692743 119692743 0 -4055581809 0
gain 7 4294967279 36 1
cascade 5623851965 7593
";

const TABLES_120: &str = "section 1 4294686209 -4294686209 0 -4294405123 0
gain 1 8589372418 15280 1
section 2 12585615 25171230 12585615 -8302595200 4057970366
gain 2 10809811738 646 148
section 3 12011612 24023224 12011612 -7923931060 3677010210
gain 3 4749044982 297 78
section 4 11703440 23406880 11703440 -7720633291 3472479753
gain 4 4357308644 280 78
section 5 82561846 0 -82561846 -8494842419 4202274093
gain 5 10011724524 8066 446
section 6 2041322579 -2025671472 0 -4279316189 0
gain 6 4294967296 549 1
section 7 95189809 95189809 0 -4104587678 0
gain 7 4294967296 46 1
cascade 4337173095 6755
";

const TABLES_230_AT_4800: &str = "section 1 4294826748 -4294826748 0 -4294686200 0
gain 1 8589653496 30559 1
section 2 2226223 4452446 2226223 -8480418075 4194355671
gain 2 10800086371 3640 355
section 3 2181957 4363914 2181957 -8311796237 4025556771
gain 3 4741867983 1630 191
section 4 2157193 4314386 2157193 -8217461078 3931122555
gain 4 4361172101 1517 202
section 5 44745882 0 -44745882 -8543914690 4249560917
gain 5 10987163940 32259 878
section 6 2310066851 -2303183331 0 -4288083777 0
gain 6 4294967920 1248 1
section 7 60692059 60692059 0 -4173583178 0
gain 7 4294967296 71 1
cascade 6717076954 30523
";

const TABLES_120_AT_4800: &str = "section 1 4294826748 -4294826748 0 -4294686200 0
gain 1 8589653496 30559 1
section 2 3197541 6395082 3197541 -8456720041 4174542911
gain 2 10801838437 2535 296
section 3 3121739 6243478 3121739 -8256241634 3973761295
gain 3 4736037231 1138 159
section 4 3079589 6159178 3079589 -8144765068 3862116129
gain 4 4359667573 1062 166
section 5 41509231 0 -41509231 -8542728606 4248364370
gain 5 9945482157 31866 893
section 6 2039267604 -2031434915 0 -4287134607 0
gain 6 4294967296 1097 1
section 7 48128240 48128240 0 -4198710816 0
gain 7 4294967296 90 1
cascade 4882878129 26437
";

#[test]
fn each_answer(rt: HostRuntime) -> Result<(), Fail> {
    for (line, status, text) in [
        ("levels X Y 1 230000 0", 0, EXACT),
        ("levels X Y 1 230000 1", 0, UNCERTAIN),
        ("levels X Y 1 50000 0", 2, "fault range 1 1\n"),
        ("levels Z Y 1 230000 0", 0, EXACT),
        ("levels V Y 1 230000 0", 0, EXACT_AT_4800),
        ("levels X X 1 230000 0", 2, "fault usage\n"),
        ("check X X", 2, "fault usage\n"),
        ("check X Y 1", 2, "fault usage\n"),
        ("tables", 2, "fault usage\n"),
        ("tables 230/60", 2, "fault usage\n"),
        ("tables 230/50 X", 2, "fault usage\n"),
        ("tables 230/50 1200", 2, "fault usage\n"),
        ("tables 230/50 02400", 2, "fault usage\n"),
        ("", 2, "fault usage\n"),
    ] {
        let words = words_of(rt.alloc(), line)?;
        let mut shelf = filled_shelf(rt.alloc())?;
        let mut sink = MemSink::new(rt.alloc(), 200, 16)?;
        let answered = run(&rt, rt.alloc(), &words, &mut shelf, &mut sink, &Open);
        assert_eq!(rt; answered, status, "{line}");
        assert_eq!(rt; sink.written(), text.as_bytes(), "{line}");
    }
    Ok(())
}

// Whether the configuration is answered by this fault.
fn is_refused<R: Threads + Sync>(
    rt: &R,
    alloc: Global,
    configuration: &str,
    fault: &str,
) -> Result<bool, OutOfMemory> {
    let words = words_of(alloc, "levels W Y 1 230000 0")?;
    let mut shelf = filled_shelf(alloc)?;
    shelf.put("W", configuration.as_bytes())?;
    let mut sink = MemSink::new(alloc, 200, 16)?;
    let answered = run(rt, alloc, &words, &mut shelf, &mut sink, &Open);
    Ok(answered == 2 && sink.written() == fault.as_bytes())
}

#[test]
fn each_fault_of_a_configuration(rt: HostRuntime) -> Result<(), Fail> {
    for (old, new, fault) in [
        (BACK, "", "fault configuration 5 0 1\n"),
        ("1,1A,0D", "1,2A,0D", "fault configuration 2 1 4\n"),
        ("2400,4800", "1200,4800", "fault configuration 6 1 7\n"),
        ("DAQ,1999", "DAQ", "fault configuration 1 3 6\n"),
        (
            "Y\r\n1\r\n",
            "Y\r\n1\r\n0\r\n",
            "fault configuration 11 0 8\n",
        ),
        (",V,", ",A,", "fault match 2 1 0\n"),
        (",0.01,", ",10000.5,", "fault match 3 1 0\n"),
        ("\r\n50\r\n", "\r\n55\r\n", "fault match 4 0 55\n"),
    ] {
        let configuration = varied(rt.alloc(), old, new)?;
        assert!(rt;
            is_refused(&rt, rt.alloc(), configuration.as_str(), fault)?,
            "{fault}"
        );
    }
    Ok(())
}

#[test]
fn a_configuration_above_the_limit(rt: HostRuntime) -> Result<(), Fail> {
    let mut configuration = varied(rt.alloc(), "", "")?;
    for _ in configuration.len()..1_048_577 {
        configuration.push(' ')?;
    }
    assert!(rt;
        is_refused(
            &rt,
            rt.alloc(),
            configuration.as_str(),
            "fault configuration 0 0 8\n"
        )?
    );
    Ok(())
}

// The first read fails, then the first of the data, and then the second write of 16 bytes.
#[test]
fn failures_are_told(rt: HostRuntime) -> Result<(), Fail> {
    let words = words_of(rt.alloc(), "levels X Y 1 230000 0")?;
    for (read, write, status, text, faults) in [
        (1, 9, 4, "fault read\n", (1, 0)),
        (3, 9, 4, "fault read\n", (1, 0)),
        (9, 2, 5, "levels channel 1", (0, 1)),
    ] {
        let mut shelf = filled_shelf(rt.alloc())?;
        shelf.fail_at(read)?;
        let mut sink = MemSink::new(rt.alloc(), 200, 16)?;
        sink.fail_at(write)?;
        let answered = run(&rt, rt.alloc(), &words, &mut shelf, &mut sink, &Open);
        assert_eq!(rt; answered, status);
        assert_eq!(rt; sink.written(), text.as_bytes());
        assert_eq!(rt; (shelf.faults(), sink.faults()), faults);
    }
    Ok(())
}

// A shelf whose reads fail.
fn failing_shelf(alloc: Global) -> Result<MemShelf, OutOfMemory> {
    let mut shelf = filled_shelf(alloc)?;
    for call in 1..9 {
        shelf.fail_at(call)?;
    }
    Ok(shelf)
}

// Whatever the reads do, the tables of a lamp are told, and none is made.
#[test]
fn tables_of_each_lamp(rt: HostRuntime) -> Result<(), Fail> {
    for (line, text) in [
        ("tables 230/50", TABLES_230),
        ("tables 120/60", TABLES_120),
        ("tables 230/50 2400", TABLES_230),
        ("tables 230/50 4800", TABLES_230_AT_4800),
        ("tables 120/60 4800", TABLES_120_AT_4800),
    ] {
        let words = words_of(rt.alloc(), line)?;
        let mut shelf = failing_shelf(rt.alloc())?;
        let mut sink = MemSink::new(rt.alloc(), 1000, 100)?;
        let answered = run(&rt, rt.alloc(), &words, &mut shelf, &mut sink, &Open);
        assert_eq!(rt; answered, 0, "{line}");
        assert_eq!(rt; sink.written(), text.as_bytes(), "{line}");
        assert_eq!(rt; (shelf.faults(), sink.faults()), (0, 0));
    }
    Ok(())
}
