//! What the definitions come to.

ghost use Rattle.std.specs.Prelude.{◌≡◌, ◌<◌, ◌||◌, ℕ, Bool, true, false, length, List, Option, Some};
ghost use Rattle.values.specs.Apply.{Apply};
ghost use Rattle.plan_core.specs.declared.plan.Plan.{Plan};
ghost use Rattle.plan_core.specs.declared.plan.TaskKind.{TaskKind};
ghost use Rattle.plan_core.specs.Carried.{Bytes, carried, writer};
ghost use Rattle.plan_core.specs.code.Carried.{IsCarrying};
ghost use Rattle.plan_core.specs.code.Grounded.{Grounded};
ghost use Rattle.plan_core.specs.Kinds.{reads_file, writes_file};
ghost use Rattle.plan_core.specs.code.Numbers.{RisesFrom};
ghost use Rattle.plan_core.specs.Numbers.{below, has};
ghost use Rattle.plan_core.specs.code.Proper.{IsProper, is_kind_in_range, is_parent};
ghost use Rattle.plan_core.specs.Words.{cleans, count_pairs, count_tasks, is_clean, kind, reads, writes};
ghost use Rattle.plan_core.specs.code.Words.{is_pair};

/// A rising list of exactly the numbers below a bound that pass is their list.
pub fn rising_lists_are_one()
    ensures { (n : ℕ) (test : ℕ → Bool) (xs : List ℕ) → RisesFrom 0 xs
        → ((x : ℕ) → has xs x ≡ true → (x < n) × (test x ≡ true))
        → ((x : ℕ) → x < n → test x ≡ true → has xs x ≡ true) → xs ≡ below n test }
{}

/// In a proper plan a file has one pair at a site, and the pairs of a site follow the order of their files.
pub fn pairs_stand_once()
    ensures once { (p : Plan) → IsProper p → (q r s f : ℕ) → is_pair p q s f ≡ true → is_pair p r s f ≡ true
        → q ≡ r }
    ensures in_order { (p : Plan) → IsProper p → (q r s f g : ℕ) → is_pair p q s f ≡ true
        → is_pair p r s g ≡ true → f < g → q < r }
{}

/// In a proper plan the numbers in pairs and in what tasks do stand for sites, files, jobs and pairs.
pub fn numbers_are_in_range()
    ensures pairs { (p : Plan) → IsProper p → (q s f : ℕ) → is_pair p q s f ≡ true
        → (s < length p.sites) × (f < length p.files) }
    ensures kinds { (p : Plan) → IsProper p → (t : ℕ) (k : TaskKind) → kind p t ≡ Some k
        → is_kind_in_range p k ≡ true }
{}

/// A proper plan's tasks list the pairs of the files that they read and write, and no others.
pub fn files_are_listed_by_pair()
    ensures reads { (p : Plan) → IsProper p → (t q s f : ℕ) → is_pair p q s f ≡ true
        → has (reads p t) q ≡ reads_file p t s f }
    ensures writes { (p : Plan) → IsProper p → (t q s f : ℕ) → is_pair p q s f ≡ true
        → has (writes p t) q ≡ writes_file p t s f }
    ensures in_range { (p : Plan) → IsProper p → (t q : ℕ) → (has (reads p t) q || has (writes p t) q) ≡ true
        → q < count_pairs p }
{}

/// In a proper plan one task writes a file at a site, and no other one.
pub fn each_pair_has_one_writer()
    ensures some { (p : Plan) → IsProper p → (q s f : ℕ) → is_pair p q s f ≡ true
        → (t : ℕ) × (writes_file p t s f ≡ true) }
    ensures one { (p : Plan) → IsProper p → (t u s f : ℕ) → writes_file p t s f ≡ true
        → writes_file p u s f ≡ true → t ≡ u }
{}

/// In a proper plan who reads a pair comes after its writer, and a Clean of it after both. A Clean reads and writes nothing.
pub fn parents_come_before()
    ensures readers { (p : Plan) → IsProper p → (t u q : ℕ) → has (reads p t) q ≡ true
        → has (writes p u) q ≡ true → is_parent p u t ≡ true }
    ensures cleans { (p : Plan) → IsProper p → (t u q : ℕ) → cleans p t q ≡ true
        → (has (writes p u) q || has (reads p u) q) ≡ true → is_parent p u t ≡ true }
    ensures nothing { (p : Plan) → IsProper p → (t q : ℕ) → is_clean p t ≡ true
        → (has (writes p t) q || has (reads p t) q) ≡ false }
    ensures in_range { (p : Plan) → IsProper p → (t u : ℕ) → is_parent p u t ≡ true → u < count_tasks p }
{}

/// In a proper plan a parent of a task writes what the task reads.
pub fn parents_write_what_is_read()
    ensures { (p : Plan) → IsProper p → (t s f : ℕ) → reads_file p t s f ≡ true
        → (u : ℕ) × (writer p s f ≡ Some u) × (writes_file p u s f ≡ true) × (is_parent p u t ≡ true) }
{}

/// In a proper plan some task passes a test on which no parent of it passes, where any task passes.
pub fn some_task_is_first()
    ensures { (p : Plan) → IsProper p → (test : ℕ → Bool) (t : ℕ) → test t ≡ true
        → (u : ℕ) × (test u ≡ true) × ((v : ℕ) → is_parent p v u ≡ true → test v ≡ false) }
{}

/// In a proper plan every way back from a task by its parents ends: for proofs by recursion on the parents.
pub fn ways_back_end()
    ensures { (p : Plan) → IsProper p → (t : ℕ) → Grounded (is_parent p) t }
{}

/// In a proper plan each task carries what it makes of what the writers of its pairs carry, and nothing else does.
pub fn carried_is_carried_along()
    ensures fits { (apply : Apply) (told : Bytes → Option Bytes) (p : Plan) → IsProper p
        → IsCarrying apply told p (carried apply told p) }
    ensures alone { (apply : Apply) (told : Bytes → Option Bytes) (p : Plan) (c : ℕ → ℕ → Option Bytes)
        → IsProper p → IsCarrying apply told p c → (t f : ℕ) → c t f ≡ carried apply told p t f }
{}
