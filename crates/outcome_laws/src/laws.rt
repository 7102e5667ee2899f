ghost use Rattle.std.specs.Prelude.{◌≡◌, ℕ, List, Option, None, Some};
ghost use Rattle.net_defs.specs.Networks.{Network};
ghost use Rattle.net_defs.specs.Specifications.{HasNetwork};
ghost use Rattle.fabric_defs.specs.Geometries.{GeometryValue};
ghost use Rattle.route_defs.specs.declared.demand.Demand.{Demand};
ghost use Rattle.place_net.specs.Placings.{FirstOver};
ghost use Rattle.produce.specs.Endings.{AlignedTo};
ghost use Rattle.pch_io.specs.Outside.{Files};
ghost use Rattle.pch_lines.specs.Words.{Form, form_of};
ghost use Rattle.pch_lines.specs.Files.{files_of};
ghost use Rattle.pch_shell.specs.Outcomes.{Outcome};
ghost use Rattle.pch_shell.specs.Loading.{AreLoaded};
ghost use Rattle.pch_shell.specs.Place.{PlaceDue};
ghost use Rattle.pch_shell.specs.Produce.{Describe, ProduceDue};
ghost use Rattle.pch_shell.specs.Due.{FilesDue};
ghost use Rattle.pch_shell.specs.Runs.{StoreState, SinkState, Runs};
ghost use Rattle.pch_shell.specs.declared.status.Status.{Status};
ghost use Rattle.outcome_laws.specs.Telling.{AreToldAlike, TellsOneThing, SavesOneThing, EndsAs, IsAnsweredBy, IsSearched};

/// The bytes of a command's files come to one status and one text that is due, but for `produce` and
/// `demo`. They come to one thing to save as well, if any, but for `place` too: it may save any
/// configuration that places the design.
pub fn files_have_one_outcome()
    ensures told { (form : Form) (files : List (List ℕ)) (o p : Outcome) → TellsOneThing form
        → FilesDue form files o → FilesDue form files p → AreToldAlike o p }
    ensures saved { (form : Form) (files : List (List ℕ)) (o p : Outcome) → SavesOneThing form
        → FilesDue form files o → FilesDue form files p → o.saved ≡ p.saved }
{}

/// Where the told files of a command are there within their limits, a run ends with the status and
/// the text that are due for their bytes, unless a fault of the outside was counted or memory was
/// wanting. So an accepted bundle is never refused, and neither is a trace that refutes its formula.
pub fn bytes_decide_the_run()
    ensures { (words : List (List ℕ)) (form : Form) (old new : StoreState)
        (before after : SinkState) (status : Status) (told : Files) (files : List (List ℕ))
        (o : Outcome)
        → Runs words old new before after status → form_of words ≡ Some form → TellsOneThing form
        → old.files ≡ Some told → AreLoaded old.files (files_of form) files
        → FilesDue form files o → EndsAs o old new before after status }
{}

/// What `place` comes to for the bytes of a design that is a network: status 0 where no resource is
/// over, and else status 7 with the line of the first that is.
pub fn demands_decide_place()
    ensures { (name : List ℕ) (g : GeometryValue) (design : List ℕ) (net : Network)
        (over : Option Demand) (o : Outcome) → HasNetwork design net → FirstOver net g over
        → PlaceDue name g design o → IsAnsweredBy over o }
{}

/// What `produce` comes to for the bytes of a specification and of a design that are networks, whose names
/// pair and of which the placed design needs no more than is there: status 0 where both have the same
/// outputs, whatever the inputs, and else status 6; with a budget that isn't enough it may be status 8.
pub fn equality_decides_produce()
    ensures { (spec_name design_name : List ℕ) (g : GeometryValue) (budget : ℕ)
        (spec design : List ℕ) (wanted given net : Network) (o : Outcome)
        → Describe spec design wanted given → AlignedTo wanted given net → FirstOver net g None
        → ProduceDue spec_name design_name g budget spec design o → IsSearched wanted net g budget o }
{}
