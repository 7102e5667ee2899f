ghost use Rattle.std.specs.Prelude.{◌≡◌, ℕ, ◌<◌, List, Result, Ok};
ghost use Rattle.std.specs.List.{All};
ghost use Rattle.bundle_defs.specs.Bundles.{BundleValue, IsBundle, bundle_bytes};
ghost use Rattle.bundle_defs.specs.Faults.{BundleOf};
ghost use Rattle.bundle_defs.specs.declared.faults.BundleError.{BundleError};

/// Each list of bytes is the bundle of one value, or else has one first fault.
pub fn bytes_have_one_bundle_or_fault()
    ensures some { (bytes : List ℕ) → All (λ byte. byte < 256) bytes
        → (answer : Result BundleValue BundleError) × BundleOf bytes answer }
    ensures one { (bytes : List ℕ) (a b : Result BundleValue BundleError)
        → BundleOf bytes a → BundleOf bytes b → a ≡ b }
{}

/// What is printed of a value is the bundle of that value, and of nothing else.
pub fn printed_bundle_is_read()
    ensures { (v : BundleValue) (answer : Result BundleValue BundleError) → IsBundle v
        → BundleOf (bundle_bytes v) answer → answer ≡ Ok v }
{}
