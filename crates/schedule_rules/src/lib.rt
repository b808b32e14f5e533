//! List scheduling of straight runs: the order into which the lines of a Linear function are
//! brought between those that steer control or leave (OCaml's `asmcomp/schedgen.ml`).
//!
//! In a run a line depends on an earlier one where one writes what the other reads or writes, or
//! where both touch memory and one stores. Of the lines that depend on none that is left before
//! them the one comes next whose height is greatest: the longest chain of what waits for it, by
//! weights.
//!
//! A run in another order that respects dependence ends as it did, where it is nowhere stuck.
//! Within it memory may differ, so of two functions only traps and the shapes of blocks are
//! compared there. What is live, where walks come, and sums over lines stay as they were between
//! runs.
//!
//! The crate holds definitions and laws alone.
#![tactic(auto)]

ghost use Rattle.std.specs.Prelude.{◌≡◌, ◌≢◌, ◌↔◌, ℕ, true, false, List, [], ◌∷◌, ◌++◌, Some, Contains, length, map};
ghost use Rattle.bs_words.specs.declared.types.Comp.{Comp};
ghost use Rattle.bs_words.specs.declared.types.Loc.{Loc};
ghost use Rattle.bs_words.specs.declared.types.Loc.TheVariants as loc;
ghost use Rattle.cmm_meaning.specs.Setting.{Setting};
ghost use Rattle.lin_ir.specs.Formed.{AreLocated, WellFormed, labels_in};
ghost use Rattle.lin_ir.specs.Keeps.{LinearSimulation};
ghost use Rattle.lin_ir.specs.Meaning.{NamedAt};
ghost use Rattle.lin_ir.specs.Walks.{Live, LiveAcross, Reached, StandsAsLine, Writes};
ghost use Rattle.lin_ir.specs.declared.lin.Lin.{Lin};
ghost use Rattle.lin_ir.specs.declared.lin.Line.{Line};
ghost use Rattle.lin_tidy_rules.specs.Leaving.{with_code};
ghost use Rattle.linearise_rules.specs.Keeps.{NamesReached, NoAddrReached};
ghost use Rattle.linearise_rules.specs.Kept.{LoweringSimulation};
ghost use Rattle.mach_ir.specs.declared.mach.Mach.{Mach};
ghost use Rattle.schedule_rules.specs.Example.{example_add, example_load, example_run};
ghost use Rattle.schedule_rules.specs.Keeps.{DoesShapes};
ghost use Rattle.schedule_rules.specs.Orders.{Both, ComesFirst, MayComeNext, Ordered, Pick, Reorders, Rest, are_plain, best, do_all, scheduled, scheduled_run, sum_of_lines};
ghost use Rattle.schedule_rules.specs.Straight.{Ranked, is_plain, ranked};

/// Law: the scheduled code is the code with each straight run in an order that respects dependence.
pub fn scheduled_respects_dependence()
    ensures { (code : List Line) → Ordered code (scheduled code) }
{}

/// Law: the line that comes next depends on none that is left before it, and of all such it is the
/// highest, and of those as high the earliest.
pub fn the_highest_comes_next()
    ensures { (left : List Ranked) (p : Pick) → best [] left ≡ Some p →
        MayComeNext left p × ((q : Pick) → MayComeNext left q → ComesFirst p q) }
{}

/// Law: where a run is nowhere stuck, every such order of it is nowhere stuck and ends in the same
/// state.
pub fn reordered_runs_end_alike()
    ensures { (c : Setting) (run other : List Line) (s u : Both) → Reorders run other →
        are_plain run ≡ true → do_all c run s ≡ Some u → do_all c other s ≡ Some u }
{}

/// Law: a function with its runs so reordered does what it did, by the shapes of blocks.
pub fn reordered_functions_do_the_same()
    ensures any { (m r : Lin) → Ordered m.code r.code → r.params ≡ m.params → AreLocated r →
        DoesShapes m r }
    ensures scheduled { (m : Lin) → AreLocated m → DoesShapes m (with_code m (scheduled m.code)) }
{}

/// Law: with exact names it does what the Mach function does from which the first was lowered, and
/// reads no poison.
pub fn reordered_functions_read_no_poison()
    ensures { (p : Mach) (m r : Lin) → LoweringSimulation p m → DoesShapes m r → WellFormed r →
        NoAddrReached r → (named : NamedAt) → NamesReached r named → LinearSimulation p r named }
{}

/// Law: between runs the same is live, and across a line that stays.
pub fn reordered_functions_have_the_same_live()
    ensures places { (m r : Lin) → Ordered m.code r.code → (l : Loc) (component : Comp) →
        l ≢ loc.Unset → (code other : List Line) (tries : List ℕ) → Ordered code other →
        Live m l component code tries ↔ Live r l component other tries }
    ensures across { (m r : Lin) → Ordered m.code r.code → (l : Loc) (component : Comp) →
        l ≢ loc.Unset → (i : Line) (next after : List Line) (tries : List ℕ) →
        Ordered next after →
        LiveAcross m l component i next tries ↔ LiveAcross r l component i after tries }
{}

/// Law: exact names at frame points are exact of it too, and no address is live after one of its
/// frame points where none was.
pub fn reordered_functions_name_the_same()
    ensures names { (m r : Lin) → Ordered m.code r.code → AreLocated m → AreLocated r →
        (named : NamedAt) → NamesReached m named → NamesReached r named }
    ensures addrs { (m r : Lin) → Ordered m.code r.code → AreLocated m → AreLocated r →
        NoAddrReached m → NoAddrReached r }
{}

/// Law: what is live behind a line of a run that writes it is live behind it in the new order too, for
/// each type. So a move from a location to itself that was read still is.
pub fn reordered_runs_have_the_same_behind()
    ensures { (m r : Lin) → Ordered m.code r.code → (l : Loc) → l ≢ loc.Unset →
        (run other code after : List Line) → are_plain run ≡ true → Reorders run other →
        Rest code after → (i : Line) (later : List Line) → StandsAsLine i later other → Writes i l →
        (sooner : List Line) × StandsAsLine i sooner run × ((component : Comp) (tries : List ℕ) →
        Live m l component (sooner ++ code) tries → Live r l component (later ++ after) tries) }
{}

/// Law: walks come to the same lines that stay, with the same traps.
pub fn reordered_functions_have_the_same_walks()
    ensures back { (m r : Lin) → Ordered m.code r.code → (i : Line) (after : List Line)
        (tries : List ℕ) → is_plain i.op ≡ false → Reached r (i ∷ after) tries →
        (next : List Line) × Ordered next after × Reached m (i ∷ next) tries }
    ensures forth { (m r : Lin) → Ordered m.code r.code → (i : Line) (next : List Line)
        (tries : List ℕ) → is_plain i.op ≡ false → Reached m (i ∷ next) tries →
        (after : List Line) × Ordered next after × Reached r (i ∷ after) tries }
{}

/// Law: the lines are the same. So where the locations of the one are its own, those of the other
/// are.
pub fn reordered_functions_have_the_same_lines()
    ensures lines { (code other : List Line) → Ordered code other → (i : Line) →
        Contains other i ↔ Contains code i }
    ensures located { (m r : Lin) → Ordered m.code r.code → m.slots ≡ r.slots → AreLocated m →
        AreLocated r }
{}

/// Law: sums over lines are the same, the number of lines, and the labels in their order.
pub fn reordered_functions_are_as_large()
    ensures sums { (measure : Line → ℕ) (code other : List Line) → Ordered code other →
        sum_of_lines measure other ≡ sum_of_lines measure code }
    ensures length { (code other : List Line) → Ordered code other → length other ≡ length code }
    ensures labels { (code other : List Line) → Ordered code other →
        labels_in other ≡ labels_in code }
{}

/// Law: of two loads and an addition to each the heights are 3, 1, 3 and 1, and the order is first,
/// third, second, fourth.
pub fn example_is_scheduled()
    ensures heights { map (λ (r : Ranked). r.height) (ranked example_run) ≡ 3 ∷ 1 ∷ 3 ∷ 1 ∷ [] }
    ensures order { scheduled_run example_run ≡ example_load 10 0 ∷ example_load 13 8
        ∷ example_add 12 10 1 ∷ example_add 14 13 2 ∷ [] }
{}
