use crate::{Analog, Config, Form, Stamp, valid_cfg, write_cfg};
use flk_num::{List, Rate};
use flk_text::DecimalValue;
use std::alloc::{AllocError, Global};
use std::test::Fail;

const NOTHING: DecimalValue = DecimalValue { n: 0 };

const ONE: DecimalValue = DecimalValue {
    n: 1_000_000_000_000_000_000_000_000,
};

const FIFTY: DecimalValue = DecimalValue {
    n: 50_000_000_000_000_000_000_000_000,
};

const LEAST: DecimalValue = DecimalValue {
    n: -32_767_000_000_000_000_000_000_000_000,
};

const GREATEST: DecimalValue = DecimalValue {
    n: 32_767_000_000_000_000_000_000_000_000,
};

const START: Stamp = Stamp {
    year: 2021,
    month: 3,
    day: 12,
    hour: 9,
    minute: 15,
    second: 0,
    nanos: 0,
};

fn voltage(alloc: Global, id: &[u8], step: i128) -> Result<Analog, AllocError> {
    Ok(Analog {
        id: List::from_slice(alloc, id)?,
        ph: List::from_slice(alloc, b"A")?,
        ccbm: List::new(alloc),
        uu: List::from_slice(alloc, b"V")?,
        a: DecimalValue { n: step },
        b: NOTHING,
        skew: NOTHING,
        min: LEAST,
        max: GREATEST,
        primary: ONE,
        secondary: ONE,
        ps: b'P',
    })
}

fn recording(alloc: Global, channel: Analog) -> Result<Config, AllocError> {
    let mut analog = List::new(alloc);
    analog.push(channel)?;
    Ok(Config {
        station: List::from_slice(alloc, b"LAB")?,
        device: List::from_slice(alloc, b"DAQ")?,
        analog,
        digital: List::new(alloc),
        lf: FIFTY,
        rate: Rate::R2400,
        endsamp: 4800,
        first: START,
        trigger: START,
        form: Form::Binary,
        timemult: ONE,
    })
}

#[test]
fn writes_the_plain_text(rt: HostRuntime) -> Result<(), Fail> {
    let channel = voltage(rt.alloc(), b"U", 10_000_000_000_000_000_000_000)?;
    let c = recording(rt.alloc(), channel)?;
    assert!(rt; valid_cfg(&c));
    let text = write_cfg(rt.alloc(), &c)?;
    assert_eq!(rt;
        text.as_slice(),
        b"LAB,DAQ,1999\r\n1,1A,0D\r\n1,U,A,,V,0.01,0,0,-32767,32767,1,1,P\r\n50\r\n1\r\n2400,4800\r\n12/03/2021,09:15:00.000000\r\n12/03/2021,09:15:00.000000\r\nBINARY\r\n1\r\n".as_slice()
    );
    Ok(())
}

#[test]
fn writes_a_fine_step(rt: HostRuntime) -> Result<(), Fail> {
    let channel = voltage(rt.alloc(), b"U L1", 12_207_031_250_000_000_000_000)?;
    let c = recording(rt.alloc(), channel)?;
    assert!(rt; valid_cfg(&c));
    let text = write_cfg(rt.alloc(), &c)?;
    let line = b"\r\n1,U L1,A,,V,0.01220703125,0,0,-32767,32767,1,1,P\r\n".as_slice();
    assert!(rt; text.len() > 21 + line.len());
    let written = &text[21..21 + line.len()];
    assert_eq!(rt; written, line);
    Ok(())
}
