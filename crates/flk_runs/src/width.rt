//! How wide the intervals of a report are, beside the bounds that follow from the samples. The bounds are computed here
//! in whole numbers, and each step is rounded to the safe side.

use crate::commands::{square_wave, varied};
use crate::report::{answer_of, shelf_of, short_job};
use flk_io::OutOfMemory;
use std::alloc::Global;
use std::test::Fail;
use std::thread::Threads;

// ---- bounds

// What bounds the radius behind the filter of the lamp 230/50: the gain of its first section, and the bound of the
// others in a row. Inputs are over 2^32, shares of rounding in units of 2^-48.
#[derive(Clone, Copy)]
struct Filter {
    first_input: u128,
    first_rounding: u128,
    chain_input: u128,
    chain_rounding: u128,
}

const AT_2400: Filter = Filter {
    first_input: 8_589_372_418,
    first_rounding: 15_280,
    chain_input: 5_623_851_965,
    chain_rounding: 7_593,
};

const AT_4800: Filter = Filter {
    first_input: 8_589_653_496,
    first_rounding: 30_559,
    chain_input: 6_717_076_954,
    chain_rounding: 30_523,
};

// How far a voltage may be from its ends, relative to a nominal voltage of 230 V, in units of 2^-64: the uncertainty
// and 2^-47.
fn doubt(uncertainty_uv: u32) -> u128 {
    (u128::from(uncertainty_uv) << 64)
        .div_ceil(230_000_000)
        .wrapping_add(1 << 17)
}

// The widest half-period in billionths: 3 * 10^9 times the doubt, and 3.
fn half_period_width(doubt: u128) -> u128 {
    (doubt.wrapping_mul(3_000_000_000) >> 64).wrapping_add(3)
}

// The radius of the adaptor's outputs, in units of 2^-48: 2 E (1/R + A^2/R^2) + 2^-40, where E is 2 A d + d^2 with the
// doubt d, A the greatest size of a voltage, and R the least number by which a square is divided, both in units of
// 2^-32.
fn output_radius(doubt: u128, greatest: u128, least: u128) -> u128 {
    let reach = greatest
        .wrapping_mul(doubt)
        .wrapping_mul(2)
        .div_ceil(1 << 32)
        .wrapping_add(doubt.wrapping_mul(doubt).div_ceil(1 << 64));
    let sum = (least << 32).wrapping_add(greatest.wrapping_mul(greatest));
    let divisor = least.wrapping_mul(least) << 16;
    reach
        .wrapping_mul(2)
        .wrapping_mul(sum)
        .div_ceil(divisor.max(1))
        .wrapping_add(256)
}

// The radius behind a part of the filter.
fn radius_after(radius: u128, input: u128, rounding: u128) -> u128 {
    radius
        .wrapping_mul(input)
        .div_ceil(1 << 32)
        .wrapping_add(rounding)
}

// The widest Pst in billionths: 796 * 10^9 times the radius behind the filter and 2^-24, and 1000.
fn severity_width(radius: u128, filter: Filter) -> u128 {
    let first = radius_after(radius, filter.first_input, filter.first_rounding);
    let last = radius_after(first, filter.chain_input, filter.chain_rounding);
    let signal = last.wrapping_add(1 << 24);
    (signal.wrapping_mul(796_000_000_000) >> 48).wrapping_add(1000)
}

// ---- printed intervals

// A number with nine decimals, in billionths.
fn billionths(text: &str) -> Option<u128> {
    let (whole, part) = text.split_once('.')?;
    let Ok(whole) = whole.parse::<u64>() else {
        return None;
    };
    let Ok(part) = part.parse::<u64>() else {
        return None;
    };
    Some(
        u128::from(whole)
            .wrapping_mul(1_000_000_000)
            .wrapping_add(u128::from(part)),
    )
}

// The width of a line's interval, in billionths.
fn width_of(line: &str) -> Option<u128> {
    let (before, after) = line.split_once(" to ")?;
    let (_, low) = before.rsplit_once(' ')?;
    let (high, _) = after.split_once(' ')?;
    Some(billionths(high)?.wrapping_sub(billionths(low)?))
}

// The first line of a report without doubt whose interval is wider than it may be.
fn first_too_wide<'a>(text: &'a str, half_period: u128, severity: u128) -> Option<&'a str> {
    for line in text.lines() {
        let most = if line.starts_with("pst ") {
            severity
        } else if line.starts_with("dc ") || line.starts_with("dmax ") {
            half_period.wrapping_mul(2)
        } else {
            continue;
        };
        match width_of(line) {
            Some(width) if width <= most => {}
            _ => return Some(line),
        }
    }
    None
}

// The square wave of 230 V with an uncertainty of a millionth: A and R are 1.
#[test]
fn widths_of_the_square_wave(rt: HostRuntime) -> Result<(), Fail> {
    let alloc = rt.alloc();
    let job = short_job(alloc, "uv = 0", "uv = 230")?;
    let configuration = varied(alloc, "", "")?;
    let data = square_wave(alloc)?;
    let mut shelf = shelf_of(alloc, job.as_str(), configuration.as_str(), &data)?;
    let (status, text) = answer_of(&rt, alloc, &mut shelf, "report J C D 1")?;
    assert_eq!(rt; status, 0);
    let Ok(text) = str::from_utf8(&text) else {
        return Err(Fail::new("no text"));
    };
    assert!(rt; text.contains("\npst 2 "));
    let doubt = doubt(230);
    let radius = output_radius(doubt, 1 << 32, 1 << 32);
    let wide = first_too_wide(
        text,
        half_period_width(doubt),
        severity_width(radius, AT_2400),
    );
    assert_eq!(rt; wide, None);
    Ok(())
}

// ---- other recordings

// Five seconds of a wave that rises and falls in a quarter of each half-period, in units of 10 mV. Its size is drawn
// anew after each 1.25 seconds, from the least one on in steps of 2 V.
fn drawn_wave(alloc: Global, rate: u32, least: u16, seed: u32) -> Result<Vec<i16>, OutOfMemory> {
    let half = (rate / 100).max(1);
    let mut values = Vec::new(alloc);
    let mut draw = seed;
    for k in 0..rate.wrapping_mul(5) {
        if k % (rate / 4).wrapping_mul(5).max(1) == 0 {
            draw = draw.wrapping_mul(1_664_525).wrapping_add(1_013_904_223);
        }
        let place = k % half;
        let part = (place.min(half - place).wrapping_mul(1024) / half).min(256);
        let size = u32::from(least) + 200 * ((draw >> 24) % 32);
        let value = (size.wrapping_mul(part) / 256).min(32_767) as i16;
        values.push(if k / half % 2 == 0 {
            value
        } else {
            value.wrapping_neg()
        })?;
    }
    Ok(values)
}

// The records of the values.
fn records_of(alloc: Global, values: &[i16]) -> Result<Vec<u8>, OutOfMemory> {
    let mut bytes = Vec::new(alloc);
    let mut number: u32 = 0;
    for value in values {
        number = number.wrapping_add(1);
        bytes.extend_from_slice(&number.to_le_bytes())?;
        bytes.extend_from_slice(&[0; 4])?;
        bytes.extend_from_slice(&value.to_le_bytes())?;
    }
    Ok(bytes)
}

// The greatest size of a value relative to 230 V, in units of 2^-32.
fn greatest_size(values: &[i16]) -> u128 {
    let mut greatest = 0;
    for value in values {
        greatest = value.unsigned_abs().max(greatest);
    }
    (u128::from(greatest) << 32).div_ceil(23_000)
}

// The least number by which a square is divided, in units of 2^-32: the mean of the squares before it, in which a
// sample counts for one part in 65,536 or in twice as many, and at least a quarter.
fn least_divisor(values: &[i16], parts: u128) -> u128 {
    let parts = parts.max(1);
    let mut mean: u128 = 1 << 64;
    let mut least = mean;
    for value in values {
        least = least.min(mean);
        let size = u128::from(value.unsigned_abs());
        let square = (size.wrapping_mul(size) << 64) / 529_000_000;
        mean = mean
            .wrapping_sub(mean.div_ceil(parts))
            .wrapping_add(square / parts);
    }
    least.max(1 << 62) >> 32
}

// The text of the report on the values.
fn report_on<R: Threads + Sync>(
    rt: &R,
    alloc: Global,
    rate: u32,
    uncertainty_uv: u32,
    values: &[i16],
) -> Result<Vec<u8>, OutOfMemory> {
    let uncertainty = format!(in alloc; "uv = {uncertainty_uv}\n")?;
    let job = short_job(alloc, "uv = 0\n", uncertainty.as_str())?;
    let count = values.len();
    let records = format!(in alloc; "{rate},{count}")?;
    let configuration = varied(alloc, "2400,4800", records.as_str())?;
    let data = records_of(alloc, values)?;
    let mut shelf = shelf_of(alloc, job.as_str(), configuration.as_str(), &data)?;
    let (_, text) = answer_of(rt, alloc, &mut shelf, "report J C D 1")?;
    Ok(text)
}

#[test]
fn widths_of_drawn_waves(rt: HostRuntime) -> Result<(), Fail> {
    let alloc = rt.alloc();
    for (rate, parts, filter, uncertainty_uv, least, seed) in [
        (2400, 65_536, AT_2400, 0, 25_000, 1),
        (2400, 65_536, AT_2400, 2300, 12_000, 2),
        (4800, 131_072, AT_4800, 230, 25_000, 3),
    ] {
        let values = drawn_wave(alloc, rate, least, seed)?;
        let text = report_on(&rt, alloc, rate, uncertainty_uv, &values)?;
        let Ok(text) = str::from_utf8(&text) else {
            return Err(Fail::new("no text"));
        };
        assert!(rt; text.contains("\ndoubtful 0\n"), "{text}");
        assert!(rt; text.contains("\npst 5 "), "{text}");
        let doubt = doubt(uncertainty_uv);
        let radius = output_radius(doubt, greatest_size(&values), least_divisor(&values, parts));
        let wide = first_too_wide(
            text,
            half_period_width(doubt),
            severity_width(radius, filter),
        );
        assert_eq!(rt; wide, None, "{seed}");
    }
    Ok(())
}
