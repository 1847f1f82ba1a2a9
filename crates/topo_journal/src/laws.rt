ghost use Rattle.std.specs.Prelude.{◌≡◌, ◌<◌, ◌^◌, ◌↔◌, true, IsTrue, List, ℕ, length, slice_index};
ghost use Rattle.topo_base.specs.declared.edit.Entry.{Entry};
ghost use Rattle.drawing.specs.InRange.{is_spelled};
ghost use Rattle.history_model.specs.Spelling.{entry_bytes};
ghost use Rattle.history_model.specs.Answers.{Bounds};
ghost use Rattle.topo_journal.specs.Bytes.{Legal, Stands};
ghost use Rattle.topo_journal.specs.Kept.{AreBytes, CanBeAdopted};
ghost use Rattle.topo_journal.specs.Entries.{spellings, AreSpelled, MayFollow, legal_entry, ReadsEntries, IsEntryFrame};

/// Bytes that stand for a history behind an open header may be adopted at the gate behind it.
pub fn adoption_law()
    ensures { (legal : Legal) (bytes : List ℕ) (bodies : List (List ℕ)) → AreBytes bytes → 1 < length bytes → slice_index bytes 0 ≡ 1
        → Stands legal bytes bodies → CanBeAdopted legal bytes bodies }
{}

/// A journal of bodies, read by the test that takes the spellings of entries that may follow, is the journal of
/// entries that `history_model` defines: the same bytes are good, for the same entries, and the same offset is bad. The
/// test takes the spelling of an entry exactly where the entry may follow. And the frame of an entry, as defined there,
/// is one that `append` takes.
pub fn entries_law()
    ensures reads { (m : Bounds) → m.max_journal < 2 ^ 32 → ReadsEntries m (legal_entry m) }
    ensures follows { (m : Bounds) (history : List Entry) (x : Entry) → AreSpelled history → IsTrue (is_spelled x)
        → (legal_entry m (spellings history) (entry_bytes x) ≡ true) ↔ MayFollow m history x }
    ensures frames { (x : Entry) → length (entry_bytes x) < 2 ^ 32 → IsEntryFrame x }
{}
