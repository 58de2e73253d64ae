//! How the arbitration lines settle, as definitions that contracts cite.

ghost use Rattle.std.specs.Prelude.{◌≡◌, [], ◌∷◌, map};
ghost use Rattle.bus_model.specs.Settling.{driven, lines_after, settled_lines, settled_rounds};

/// The numbers 10, 9 and 7 compete: the lines are 15, 8, 11 and 10, round by round. So do numbers
/// of ten bits, and an eleventh is not looked at. A single competitor settles at once.
pub fn small_contests_settle()
    ensures lines { map (lines_after (10 ∷ 9 ∷ 7 ∷ [])) (0 ∷ 1 ∷ 2 ∷ 3 ∷ [])
        ≡ 15 ∷ 8 ∷ 11 ∷ 10 ∷ [] }
    ensures settled { settled_lines (10 ∷ 9 ∷ 7 ∷ []) ≡ 10 }
    ensures rounds { settled_rounds (10 ∷ 9 ∷ 7 ∷ []) ≡ 3 }
    ensures ten_bits { map (lines_after (640 ∷ 576 ∷ 511 ∷ [])) (0 ∷ 1 ∷ 2 ∷ 3 ∷ [])
        ≡ 1023 ∷ 512 ∷ 704 ∷ 640 ∷ [] }
    ensures ten_bits_settled { settled_lines (640 ∷ 576 ∷ 511 ∷ []) ≡ 640 }
    ensures ten_bits_rounds { settled_rounds (640 ∷ 576 ∷ 511 ∷ []) ≡ 3 }
    ensures no_eleventh { driven 1024 1 ≡ 1 }
    ensures alone { settled_rounds (10 ∷ []) ≡ 0 }
{}
