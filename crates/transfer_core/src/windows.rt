//! Laws of windows, worked examples of them, and of what is told of the versions in them (RFC 1995, 4 and 5; own).
ghost use Rattle.std.specs.Prelude.{◌≡◌, ◌≢◌, ℕ, true, List, ◌∷◌, [], AllPairs, Some, None};
ghost use Rattle.dns_rdata.specs.Record.{Record};
ghost use Rattle.transfer_core.specs.Lists.{incremental};
ghost use Rattle.transfer_core.specs.Window.{fits, AreRising, window, IsLongestRun, changes_since};
ghost use Rattle.transfer_core.specs.Examples.{jain_1, jain_2, jain_3, short_zone};

/// Windows by their size, by newer versions, and by the ring of serials, also across its end (RFC 1982, 3.2; own).
#[tactic(auto, unfolding(dns_rdata::specs::Layout::layout_of, dns_rdata::specs::Data::data_of))]
pub fn examples_of_windows()
    ensures all { window 3 [] (short_zone 1 ∷ short_zone 2 ∷ short_zone 3 ∷ []) ≡ short_zone 1 ∷ short_zone 2 ∷ short_zone 3 ∷ [] }
    ensures two { window 2 [] (short_zone 1 ∷ short_zone 2 ∷ short_zone 3 ∷ []) ≡ short_zone 2 ∷ short_zone 3 ∷ [] }
    ensures none { window 0 [] (short_zone 1 ∷ short_zone 2 ∷ []) ≡ [] }
    ensures newer { window 2 (short_zone 3 ∷ []) (short_zone 1 ∷ short_zone 2 ∷ []) ≡ short_zone 2 ∷ [] }
    ensures served_is_too_old { window 2 (short_zone 3 ∷ short_zone 4 ∷ []) (short_zone 1 ∷ short_zone 2 ∷ []) ≡ [] }
    ensures around { window 16 [] (short_zone 4294967295 ∷ short_zone 0 ∷ []) ≡ short_zone 4294967295 ∷ short_zone 0 ∷ [] }
    ensures under_half { window 16 [] (short_zone 1 ∷ short_zone 2147483648 ∷ []) ≡ short_zone 1 ∷ short_zone 2147483648 ∷ [] }
    ensures half { window 16 [] (short_zone 1 ∷ short_zone 2 ∷ short_zone 2147483649 ∷ []) ≡ short_zone 2 ∷ short_zone 2147483649 ∷ [] }
    ensures whole_ring { window 16 [] (short_zone 1 ∷ short_zone 2147483648 ∷ short_zone 4294967295 ∷ short_zone 2147483646 ∷ []) ≡ short_zone 4294967295 ∷ short_zone 2147483646 ∷ [] }
{}

/// What is told: the asker's version is in the window, older than the served one, and each after it is kept (RFC 1995, 4, 5 and
/// 7; own).
#[tactic(auto, unfolding(dns_rdata::specs::Layout::layout_of, dns_rdata::specs::Data::data_of))]
pub fn examples_of_changes()
    ensures both { changes_since 16 [] 2 1 (jain_1 ∷ jain_2 ∷ jain_3 ∷ []) ≡ Some (incremental jain_1 (jain_2 ∷ jain_3 ∷ [])) }
    ensures last { changes_since 16 [] 2 2 (jain_1 ∷ jain_2 ∷ jain_3 ∷ []) ≡ Some (incremental jain_2 (jain_3 ∷ [])) }
    ensures one_is_kept { changes_since 16 [] 1 2 (jain_1 ∷ jain_2 ∷ jain_3 ∷ []) ≡ Some (incremental jain_2 (jain_3 ∷ [])) }
    ensures one_is_not { changes_since 16 [] 1 1 (jain_1 ∷ jain_2 ∷ jain_3 ∷ []) ≡ None }
    ensures unknown { changes_since 16 [] 2 4 (jain_1 ∷ jain_2 ∷ jain_3 ∷ []) ≡ None }
    ensures same { changes_since 16 [] 2 3 (jain_1 ∷ jain_2 ∷ jain_3 ∷ []) ≡ None }
    ensures outside { changes_since 2 [] 2 1 (jain_1 ∷ jain_2 ∷ jain_3 ∷ []) ≡ None }
    ensures older { changes_since 3 (jain_3 ∷ []) 1 1 (jain_1 ∷ jain_2 ∷ []) ≡ Some (incremental jain_1 (jain_2 ∷ [])) }
    ensures older_outside { changes_since 2 (jain_3 ∷ []) 1 1 (jain_1 ∷ jain_2 ∷ []) ≡ None }
    ensures around { changes_since 16 [] 1 4294967295 (short_zone 4294967295 ∷ short_zone 0 ∷ []) ≡ Some (incremental (short_zone 4294967295) (short_zone 0 ∷ [])) }
{}

/// A window is the longest run up to the newest version that fits (RFC 1995, 5; own).
pub fn windows_are_longest_runs()
    ensures { (size : ℕ) (newer zones : List (List Record)) → IsLongestRun size newer zones (window size newer zones) }
{}

/// Serials that rise, and fit a window, all differ: no serial stands in a window twice (RFC 1982, 3.2; own).
pub fn serials_of_a_window_differ()
    ensures { (size serial : ℕ) (serials : List ℕ) → AreRising serial serials → fits size (serial ∷ serials) ≡ true → AllPairs (λ older newer. older ≢ newer) (serial ∷ serials) }
{}
