// What holds of the bytes of every journal, and of the overlay of every list of records.
ghost use Rattle.std.specs.Prelude.{◌≡◌, ◌≤◌, ◌<◌, ◌^◌, ℕ, List, All, length, Some, None};
ghost use Rattle.ts_journal.specs.Journal.{Entry as AnEntry, IsRising, change_of, put_all, over, AreBytes, IsRecord};
ghost use Rattle.ts_journal.specs.Journal.{first_record, IsVolumeSize, page_count, region, records, overlay_of};
ghost use Rattle.ts_journal.specs.Journal.{last_change, AreRecords, IsMalformed};

/// Bytes are read as a record exactly where it stands there.
pub fn a_record_is_read_where_it_stands()
    ensures read { (count : ℕ) (bytes : List ℕ) (es : List AnEntry) → count ≤ 2 ^ 32 → AreBytes bytes →
        first_record count bytes ≡ Some es → IsRecord count es bytes }
    ensures stands { (count : ℕ) (bytes : List ℕ) (es : List AnEntry) → count ≤ 2 ^ 32 → length bytes < 2 ^ 32 →
        IsRecord count es bytes → first_record count bytes ≡ Some es }
{}

/// The records of a journal are those that stand one behind the other, up to a gate that isn't open. It has none
/// exactly where a record that is reached through open gates is malformed.
pub fn records_are_read_where_they_stand()
    ensures read { (image : List ℕ) (rs : List (List AnEntry)) → IsVolumeSize (length image) → AreBytes image →
        records image ≡ Some rs → AreRecords (page_count (length image)) rs (region image) }
    ensures stand { (image : List ℕ) (rs : List (List AnEntry)) → IsVolumeSize (length image) →
        AreRecords (page_count (length image)) rs (region image) → records image ≡ Some rs }
    ensures malformed { (image : List ℕ) → IsVolumeSize (length image) → AreBytes image → records image ≡ None
        → IsMalformed image }
    ensures none { (image : List ℕ) → IsVolumeSize (length image) → AreBytes image → IsMalformed image
        → records image ≡ None }
{}

/// What records put over the pages has one entry for each page that they name, which is the last there; and what a
/// batch puts over pages is read over what was put there before.
pub fn an_overlay_has_the_last_change_of_each_page()
    ensures last { (rs : List (List AnEntry)) (number : ℕ) → change_of number (overlay_of rs) ≡ last_change number rs }
    ensures one { (rs : List (List AnEntry)) (top : ℕ) → All (IsRising 0 top) rs → IsRising 0 top (overlay_of rs) }
    ensures over { (old es : List AnEntry) (pages : ℕ → List ℕ) (number : ℕ) → IsRising 0 (2 ^ 32) es →
        over (put_all old es) pages number ≡ over es (over old pages) number }
{}
