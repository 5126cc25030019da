//! Laws of the definitions. Each function here has an empty body, and its contract is the law. Nothing here runs.

ghost use Rattle.std.specs.Prelude.{◌≡◌, ℕ, ◌+◌, ◌*◌, ◌<◌, ◌≤◌, ◌⊎◌, ◌++◌, List, length, All};
ghost use Rattle.std.specs.List.{flat_map};
ghost use Rattle.flk_dat.specs.Records.{DataRecord, Layout, HasWidth, AreConsecutive, record_at};
ghost use Rattle.flk_dat.specs.AsciiRecords.{longest_line};
ghost use Rattle.flk_dat.specs.DataFile.{longest_tail, AreFirst, IsFile, IsAccepted, IsFaultAfter, IsFirstDataFault};
ghost use Rattle.flk_dat.specs.Written.{IsWritable, written_record};
ghost use Rattle.flk_dat.specs.States.{layout, Stands};
ghost use Rattle.flk_dat.specs.declared.kind.Kind.{Kind as FaultKind};
ghost use Rattle.flk_dat.specs.declared.reader.Reader.{Reader as State};

/// Bytes write at most one list of records, also where they aren't a whole file: their k-th record is one.
pub fn bytes_have_one_list_of_records()
    ensures each { (l : Layout) (bytes : List ℕ) (rs ss : List DataRecord) → AreFirst l bytes rs → AreFirst l bytes ss
        → (k : ℕ) → k < length rs → k < length ss → record_at rs k ≡ record_at ss k }
    ensures whole { (l : Layout) (bytes : List ℕ) (rs ss : List DataRecord) → IsFile l bytes rs → IsFile l bytes ss
        → rs ≡ ss }
{}

/// Bytes that are accepted have no first fault. So a reader answers a fault only where they aren't accepted.
pub fn accepted_bytes_have_no_fault()
    ensures { (l : Layout) (bytes : List ℕ) (rs : List DataRecord) (row field : ℕ) (kind : FaultKind)
        → IsAccepted l bytes rs → IsFirstDataFault l bytes row field kind → ⊥ }
{}

/// Bytes have at most one first fault: one record, one field and one kind.
pub fn bytes_have_one_first_fault()
    ensures fault { (l : Layout) (bytes : List ℕ) (row other field place : ℕ) (kind again : FaultKind)
        → IsFirstDataFault l bytes row field kind → IsFirstDataFault l bytes other place again
        → (row ≡ other) × (field ≡ place) × (kind ≡ again) }
    ensures behind { (l : Layout) (bytes : List ℕ) (rs ss : List DataRecord) (field place : ℕ) (kind again : FaultKind)
        → IsFaultAfter l bytes rs field kind → IsFaultAfter l bytes ss place again
        → (rs ≡ ss) × (field ≡ place) × (kind ≡ again) }
{}

/// Any bytes write records that are accepted, or have a first fault. With the two laws above it is exactly one of both.
pub fn bytes_are_accepted_or_have_a_fault()
    ensures { (l : Layout) (bytes : List ℕ) → ((rs : List DataRecord) × IsAccepted l bytes rs)
        ⊎ ((row : ℕ) × (field : ℕ) × (kind : FaultKind) × IsFirstDataFault l bytes row field kind) }
{}

/// The bytes that a reader has taken without a fault have none whatever follows them: no fault is theirs with each
/// continuation. So a reader answers a fault in the call in which the bytes taken first have it.
pub fn standing_bytes_have_no_sure_fault()
    ensures { (r : State) (taken : List ℕ) (given : List DataRecord) (row field : ℕ) (kind : FaultKind)
        → Stands r taken given → ((more : List ℕ) → IsFirstDataFault (layout r) (taken ++ more) row field kind) → ⊥ }
{}

/// What a reader has taken without a fault is bounded: a record is a line of at most 16,384 bytes with an end of at
/// most 2, or is shorter, and what is left behind the records given has at most 65,536 bytes. So a file that never ends
/// has a fault.
pub fn taken_bytes_are_bounded()
    ensures { (r : State) (taken : List ℕ) (given : List DataRecord) → Stands r taken given
        → length taken ≤ (longest_line + 2) * (layout r).records + longest_tail }
{}

/// Canonical records one after another, with numbers that follow each other, are the file of these records. So what is
/// written by `write_record` for the records of a configuration is read back.
pub fn written_records_are_a_file()
    ensures { (l : Layout) (rs : List DataRecord) → 0 < l.records → length l.selected ≤ 256 → l.digital ≤ 256
        → length rs ≡ l.records → AreConsecutive rs
        → ((i : ℕ) → i < length rs → HasWidth (length l.selected) l.digital (record_at rs i))
        → ((i : ℕ) → i < length rs → IsWritable l.form (record_at rs i))
        → IsFile l (flat_map (written_record l.form) rs) rs }
{}

/// The records with which bytes begin can be written: their sample numbers, time stamps and values are in the form's
/// sets. So a record that was read meets what `write_record` asks for.
pub fn records_of_a_file_can_be_written()
    ensures { (l : Layout) (bytes : List ℕ) (rs : List DataRecord) (k : ℕ) → All (λ b. b < 256) bytes
        → AreFirst l bytes rs → k < length rs
        → IsWritable l.form (record_at rs k) }
{}
