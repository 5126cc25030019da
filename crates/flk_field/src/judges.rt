//! The fields of a line against the sets of the table: each function judges the field at a place, counted from 1, and
//! answers its value, or its fault.

ghost use Rattle.std.specs.Prelude.{◌≡◌, ◌<◌, ◌≤◌, ◌^◌, ◌-◌, codes, length, MatchResult};
ghost use Rattle.flk_text.specs.Decimal.{IsDecimal};
ghost use Rattle.flk_field.specs.Dates.{IsDateOf, IsTimeOf};
ghost use Rattle.flk_field.specs.Values.{IsText, IsWholeFrom, IsCounted, IsDecimalOrZero, IsFrequency, IsRate, IsSide, IsBit, IsFormWord};
ghost use Rattle.flk_field.specs.Sets.{Text, Revision, Total, Counted, Position, Decimal, DecimalOrZero, Side, Bit, Frequency, OneRate, SamplingRate, SampleCount, Date as DateSet, Time as TimeSet, FormWord, IsIn, at as part_at};
ghost use Rattle.flk_field.specs.Columns.{parts_of, FieldFault};

use crate::columns::Columns;
use crate::date::{Day, TimeNumbers, date, time};
use crate::fields::{
    bit, counted, form_word, frequency, is_position, number, number_or_zero, one_rate, revision,
    sample_count, sampling_rate, side, text, total,
};
use crate::form::Form;
use crate::kind::Fault;
use flk_num::Rate;
use flk_text::DecimalValue;

impl<'a> Columns<'a> {
    /// Whether the field at the place is a text.
    #[tactic(auto, unfolding(crate::specs::Sets::IsIn))]
    pub fn text(&self, place: usize) -> Result<(), Fault>
        requires some { (0 < place) × (place ≤ 13) }
        requires there { place ≤ length (parts_of self.now) }
        ensures { MatchResult result
            (λ _. IsIn Text (part_at (parts_of self.now) place) × IsText (part_at (parts_of self.now) place))
            (λ f. FieldFault Text self.now place f) }
    {
        match text(self.field(place)) {
            Ok(_) => Ok(()),
            Err(kind) => Err(self.fault(place, kind)),
        }
    }

    /// Whether the field at the place is the revision year.
    #[tactic(auto, unfolding(crate::specs::Sets::IsIn))]
    pub fn revision(&self, place: usize) -> Result<(), Fault>
        requires some { (0 < place) × (place ≤ 13) }
        requires there { place ≤ length (parts_of self.now) }
        ensures { MatchResult result
            (λ _. IsIn Revision (part_at (parts_of self.now) place)
            × (part_at (parts_of self.now) place ≡ codes "1999"))
            (λ f. FieldFault Revision self.now place f) }
    {
        match revision(self.field(place)) {
            Ok(_) => Ok(()),
            Err(kind) => Err(self.fault(place, kind)),
        }
    }

    /// The number of channels.
    #[tactic(auto, unfolding(crate::specs::Sets::IsIn))]
    pub fn total(&self, place: usize) -> Result<u32, Fault>
        requires some { (0 < place) × (place ≤ 13) }
        requires there { place ≤ length (parts_of self.now) }
        ensures { MatchResult result
            (λ n. IsIn Total (part_at (parts_of self.now) place)
            × IsWholeFrom 1 512 (part_at (parts_of self.now) place) n)
            (λ f. FieldFault Total self.now place f) }
    {
        match total(self.field(place)) {
            Ok(value) => Ok(value),
            Err(kind) => Err(self.fault(place, kind)),
        }
    }

    /// The number of channels of one kind, before its letter.
    #[tactic(auto, unfolding(crate::specs::Sets::IsIn))]
    pub fn counted(&self, place: usize, capital: u8, least: u32, most: u32) -> Result<u32, Fault>
        requires some { (0 < place) × (place ≤ 13) }
        requires there { place ≤ length (parts_of self.now) }
        requires letter { capital < 128 }
        ensures { MatchResult result
            (λ n. IsIn (Counted capital least most) (part_at (parts_of self.now) place)
            × IsCounted capital least most (part_at (parts_of self.now) place) n)
            (λ f. FieldFault (Counted capital least most) self.now place f) }
    {
        match counted(self.field(place), capital, least, most) {
            Ok(value) => Ok(value),
            Err(kind) => Err(self.fault(place, kind)),
        }
    }

    /// Whether the field at the place is the position.
    #[tactic(auto, unfolding(crate::specs::Sets::IsIn))]
    pub fn position(&self, place: usize, position: u32) -> Result<(), Fault>
        requires some { (0 < place) × (place ≤ 13) }
        requires there { place ≤ length (parts_of self.now) }
        ensures { MatchResult result
            (λ _. IsIn (Position position) (part_at (parts_of self.now) place)
            × IsWholeFrom position position (part_at (parts_of self.now) place) position)
            (λ f. FieldFault (Position position) self.now place f) }
    {
        match is_position(self.field(place), position) {
            Ok(_) => Ok(()),
            Err(kind) => Err(self.fault(place, kind)),
        }
    }

    /// The decimal.
    #[tactic(auto, unfolding(crate::specs::Sets::IsIn))]
    pub fn decimal(&self, place: usize) -> Result<DecimalValue, Fault>
        requires some { (0 < place) × (place ≤ 13) }
        requires there { place ≤ length (parts_of self.now) }
        ensures { MatchResult result
            (λ v. IsIn Decimal (part_at (parts_of self.now) place) × IsDecimal (part_at (parts_of self.now) place) v.n)
            (λ f. FieldFault Decimal self.now place f) }
    {
        match number(self.field(place)) {
            Ok(value) => Ok(value),
            Err(kind) => Err(self.fault(place, kind)),
        }
    }

    /// The decimal, or 0 where the field is empty.
    #[tactic(auto, unfolding(crate::specs::Sets::IsIn))]
    pub fn decimal_or_zero(&self, place: usize) -> Result<DecimalValue, Fault>
        requires some { (0 < place) × (place ≤ 13) }
        requires there { place ≤ length (parts_of self.now) }
        ensures { MatchResult result
            (λ v. IsIn DecimalOrZero (part_at (parts_of self.now) place)
            × IsDecimalOrZero (part_at (parts_of self.now) place) v.n)
            (λ f. FieldFault DecimalOrZero self.now place f) }
    {
        match number_or_zero(self.field(place)) {
            Ok(value) => Ok(value),
            Err(kind) => Err(self.fault(place, kind)),
        }
    }

    /// The letter of primary or secondary values.
    #[tactic(auto, unfolding(crate::specs::Sets::IsIn))]
    pub fn side(&self, place: usize) -> Result<u8, Fault>
        requires some { (0 < place) × (place ≤ 13) }
        requires there { place ≤ length (parts_of self.now) }
        ensures { MatchResult result
            (λ b. IsIn Side (part_at (parts_of self.now) place) × IsSide (part_at (parts_of self.now) place) b)
            (λ f. FieldFault Side self.now place f) }
    {
        match side(self.field(place)) {
            Ok(value) => Ok(value),
            Err(kind) => Err(self.fault(place, kind)),
        }
    }

    /// The bit.
    #[tactic(auto, unfolding(crate::specs::Sets::IsIn))]
    pub fn bit(&self, place: usize) -> Result<bool, Fault>
        requires some { (0 < place) × (place ≤ 13) }
        requires there { place ≤ length (parts_of self.now) }
        ensures { MatchResult result
            (λ b. IsIn Bit (part_at (parts_of self.now) place) × IsBit (part_at (parts_of self.now) place) b)
            (λ f. FieldFault Bit self.now place f) }
    {
        match bit(self.field(place)) {
            Ok(value) => Ok(value),
            Err(kind) => Err(self.fault(place, kind)),
        }
    }

    /// The line frequency.
    #[tactic(auto, unfolding(crate::specs::Sets::IsIn))]
    pub fn frequency(&self, place: usize) -> Result<DecimalValue, Fault>
        requires some { (0 < place) × (place ≤ 13) }
        requires there { place ≤ length (parts_of self.now) }
        ensures { MatchResult result
            (λ v. IsIn Frequency (part_at (parts_of self.now) place)
            × IsFrequency (part_at (parts_of self.now) place) v.n)
            (λ f. FieldFault Frequency self.now place f) }
    {
        match frequency(self.field(place)) {
            Ok(value) => Ok(value),
            Err(kind) => Err(self.fault(place, kind)),
        }
    }

    /// Whether the field at the place is the number of rates.
    #[tactic(auto, unfolding(crate::specs::Sets::IsIn))]
    pub fn one_rate(&self, place: usize) -> Result<(), Fault>
        requires some { (0 < place) × (place ≤ 13) }
        requires there { place ≤ length (parts_of self.now) }
        ensures { MatchResult result
            (λ _. IsIn OneRate (part_at (parts_of self.now) place)
            × IsWholeFrom 1 1 (part_at (parts_of self.now) place) 1)
            (λ f. FieldFault OneRate self.now place f) }
    {
        match one_rate(self.field(place)) {
            Ok(_) => Ok(()),
            Err(kind) => Err(self.fault(place, kind)),
        }
    }

    /// The sampling rate.
    #[tactic(auto, unfolding(crate::specs::Sets::IsIn))]
    pub fn sampling_rate(&self, place: usize) -> Result<Rate, Fault>
        requires some { (0 < place) × (place ≤ 13) }
        requires there { place ≤ length (parts_of self.now) }
        ensures { MatchResult result
            (λ rate. IsIn SamplingRate (part_at (parts_of self.now) place)
            × IsRate (part_at (parts_of self.now) place) rate)
            (λ f. FieldFault SamplingRate self.now place f) }
    {
        match sampling_rate(self.field(place)) {
            Ok(value) => Ok(value),
            Err(kind) => Err(self.fault(place, kind)),
        }
    }

    /// The number of records.
    #[tactic(auto, unfolding(crate::specs::Sets::IsIn))]
    pub fn sample_count(&self, place: usize) -> Result<u32, Fault>
        requires some { (0 < place) × (place ≤ 13) }
        requires there { place ≤ length (parts_of self.now) }
        ensures { MatchResult result
            (λ n. IsIn SampleCount (part_at (parts_of self.now) place)
            × IsWholeFrom 1 (2 ^ 32 - 1) (part_at (parts_of self.now) place) n)
            (λ f. FieldFault SampleCount self.now place f) }
    {
        match sample_count(self.field(place)) {
            Ok(value) => Ok(value),
            Err(kind) => Err(self.fault(place, kind)),
        }
    }

    /// The date.
    #[tactic(auto, unfolding(crate::specs::Sets::IsIn))]
    pub fn date(&self, place: usize) -> Result<Day, Fault>
        requires some { (0 < place) × (place ≤ 13) }
        requires there { place ≤ length (parts_of self.now) }
        ensures { MatchResult result
            (λ d. IsIn DateSet (part_at (parts_of self.now) place)
            × IsDateOf (part_at (parts_of self.now) place) d.year d.month d.day)
            (λ f. FieldFault DateSet self.now place f) }
    {
        match date(self.field(place)) {
            Ok(value) => Ok(value),
            Err(kind) => Err(self.fault(place, kind)),
        }
    }

    /// The time.
    #[tactic(auto, unfolding(crate::specs::Sets::IsIn))]
    pub fn time(&self, place: usize) -> Result<TimeNumbers, Fault>
        requires some { (0 < place) × (place ≤ 13) }
        requires there { place ≤ length (parts_of self.now) }
        ensures { MatchResult result
            (λ t. IsIn TimeSet (part_at (parts_of self.now) place)
            × IsTimeOf (part_at (parts_of self.now) place) t.hour t.minute t.second t.nanos)
            (λ f. FieldFault TimeSet self.now place f) }
    {
        match time(self.field(place)) {
            Ok(value) => Ok(value),
            Err(kind) => Err(self.fault(place, kind)),
        }
    }

    /// The form of the data file.
    #[tactic(auto, unfolding(crate::specs::Sets::IsIn))]
    pub fn form_word(&self, place: usize) -> Result<Form, Fault>
        requires some { (0 < place) × (place ≤ 13) }
        requires there { place ≤ length (parts_of self.now) }
        ensures { MatchResult result
            (λ form. IsIn FormWord (part_at (parts_of self.now) place)
            × IsFormWord (part_at (parts_of self.now) place) form)
            (λ f. FieldFault FormWord self.now place f) }
    {
        match form_word(self.field(place)) {
            Ok(value) => Ok(value),
            Err(kind) => Err(self.fault(place, kind)),
        }
    }
}
