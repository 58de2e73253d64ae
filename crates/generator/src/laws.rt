//! What holds of every generated setup.

ghost use Rattle.std.specs.Prelude.{◌≡◌, ℕ};
ghost use Rattle.bus_model.specs.Setup.{WellFormed, AllInClass, access_count};
ghost use Rattle.generator.specs.Generated.{generated};

/// Every generated setup is within the limits of setups, its tables are in the class, and it has
/// 100,000 accesses.
pub fn generated_setups_are_accepted()
    ensures well_formed { (n : ℕ) → WellFormed (generated n) }
    ensures in_class { (n : ℕ) → AllInClass (generated n) }
    ensures accesses { (n : ℕ) → access_count (generated n) ≡ 100000 }
{}
