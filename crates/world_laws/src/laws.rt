//! What the definitions say of lines that are played, each the contract of a function that does nothing.
ghost use Rattle.std.specs.Prelude.{◌≡◌, ℕ, ◌<◌, ◌≤◌, ◌^◌, filter, true, List, [], ◌∷◌, length, codes, Option, Some};
ghost use Rattle.std.specs.List.{slice_get};
ghost use Rattle.cell_core.specs.Cell.{Cell};
ghost use Rattle.cell_core.specs.Shows.{Shows};
ghost use Rattle.cell_core.specs.Words.{State};
ghost use Rattle.dns_rdata.specs.Record.{Record};
ghost use Rattle.dns_message.specs.Request.{reads};
ghost use Rattle.world_run.specs.Judgements.{judged};
ghost use Rattle.zone_tree.specs.Version.{Version as Numbered};
ghost use Rattle.world_run.specs.Numbered.{first_version, changes_between};
ghost use Rattle.world_run.specs.Phases.{after};
ghost use Rattle.world_laws.specs.UpdateAnswers.{heading_of, KeepsHeading, got_alone};
ghost use Rattle.world_run.specs.declared.judged.Judged.TheVariants.{Code, Makes};
ghost use Rattle.world_run.specs.declared.phase.End.TheVariants.{NoSlot, Kept};
ghost use Rattle.world_run.specs.declared.entries.Entry.{Entry};
ghost use Rattle.world_run.specs.declared.phase.Phase.{Phase};
ghost use Rattle.cell_core.specs.declared.words.WordEvent.{WordEvent};
ghost use Rattle.dns_rdata.specs.declared.numbers.Rcode.{Rcode};
ghost use Rattle.dns_rdata.specs.declared.numbers.Rcode.TheVariants.{NoError, ServFail};
ghost use Rattle.serve_core.specs.declared.heading.Heading.{Heading};
ghost use Rattle.dns_message.specs.declared.query.Parsed.TheVariants.{Query as Asks};
ghost use Rattle.dns_message.specs.declared.query.Query.{Query};
ghost use Rattle.dns_rdata.specs.Numbers.{type_IXFR};
ghost use Rattle.zone_tree.specs.Zone.{IsZone};
ghost use Rattle.serve_core.specs.Served.{ForNothing, got};
ghost use Rattle.serve_core.specs.declared.transport.Transport.TheVariants.{Udp};
ghost use Rattle.world_laws.specs.Held.{HoldVersions, IsGone, IsAtRest, tells_buried};
ghost use Rattle.world_laws.specs.InTurn.{IsOpen, AreToldInTurn};
ghost use Rattle.world_laws.specs.Leads.{AreOctets, HaveSerials, AnswerFor, AnswerSince};
ghost use Rattle.world_laws.specs.Lines.{TakesOneStep};
ghost use Rattle.world_laws.specs.Replays.{IsReplayed, IsAnsweredInReplay};
ghost use Rattle.world_laws.specs.Runs.{Run, IsShownBy, IsAnsweredAtLoaded, ShowsReached};
ghost use Rattle.world_run.specs.World.{World, started, turn, play, replies_of, zone_of, start, ask_said, code_reply, answer_at};
ghost use Rattle.world_run.specs.declared.start.Start.TheVariants.{Answers};
ghost use Rattle.world_run.specs.declared.step.Call.{Call};
ghost use Rattle.world_run.specs.declared.step.Call.TheVariants.{Load, Drop, Copy, Weak, Fade, Up, Ask, Transfer, Update};
ghost use Rattle.world_run.specs.declared.step.Answer.TheVariants.{Owner, Left, Buried, Faded, Nothing, Messages};
ghost use Rattle.world_run.specs.declared.step.StepName.{StepName};
ghost use Rattle.world_run.specs.declared.step.StepName.TheVariants as step_name;
ghost use Rattle.world_run.specs.declared.step.WorldStep.TheVariants.{Whole, Begin, Next};
ghost use Rattle.world_run.specs.declared.step.WorldReply.{WorldReply};
ghost use Rattle.world_run.specs.declared.step.WorldReply.TheVariants.{Answered, Begun, Step, Last, NotEnabled};
ghost use Rattle.world_run.specs.declared.step.WorldStep.{WorldStep};

/// Lines that are played make a run of steps on words, which shows a run of the cell; each name in use is that of an owner
/// which comes from a load of the run.
pub fn plays_are_runs()
    ensures run { (first : List Record) (keep window : ℕ) (lines : List WorldStep) (replies : List WorldReply) (world : World)
        → play (started first keep window) lines ≡ Some (replies, world) → (run : Run) × IsShownBy first run world }
    ensures cell { (first : List Record) (keep window : ℕ) (lines : List WorldStep) (replies : List WorldReply) (world : World)
        → play (started first keep window) lines ≡ Some (replies, world) → ShowsReached first world.words }
{}

/// Whatever lines were played, a request of a name in use is answered in the version that was last at the load from which the
/// name's owner comes.
pub fn asks_are_answered_at_loaded()
    ensures version { (first : List Record) (keep window : ℕ) (lines : List WorldStep) (replies : List WorldReply) (world : World) (name : List ℕ) (zone : List Record)
        → play (started first keep window) lines ≡ Some (replies, world) → zone_of name world ≡ Some zone → IsAnsweredAtLoaded first world name zone }
    ensures answer { (world : World) (name request : List ℕ) (zone : List Record) → zone_of name world ≡ Some zone
        → start world (Ask name request) ≡ ask_said zone (reads request) }
{}

/// Whatever lines were played, the versions that were published are the first zone and its replays: each further version is what
/// the next update that a line sent makes of the one before it, let through by each rule there. A request of a name in use is
/// answered in the replay of as many updates as the number says that was last at the load from which the name's owner comes.
pub fn versions_are_replays()
    ensures replay { (first : List Record) (keep window : ℕ) (lines : List WorldStep) (replies : List WorldReply) (world : World)
        → play (started first keep window) lines ≡ Some (replies, world) → IsReplayed first lines world }
    ensures answered { (first : List Record) (keep window : ℕ) (lines : List WorldStep) (replies : List WorldReply) (world : World) (name : List ℕ) (zone : List Record)
        → play (started first keep window) lines ≡ Some (replies, world) → zone_of name world ≡ Some zone → IsAnsweredInReplay first lines world name zone }
{}

/// Whatever lines were played, each update that made a version is told NOERROR at its end, or it is under way still; and each line is of the
/// call of one of these updates, or leaves the versions that are published as they were (RFC 2136, 3; own).
pub fn updates_are_answered_in_turn()
    ensures { (first : List Record) (keep window : ℕ) (lines : List WorldStep) (replies : List WorldReply) (world : World)
        → play (started first keep window) lines ≡ Some (replies, world) → AreToldInTurn first keep window lines replies world }
{}

/// An update that is told a code at once, or makes a version, gets that code, or NOERROR and the version's zone, in the version that
/// is last when it begins; one that makes a version ends with NOERROR, or with SERVFAIL where each of the 64 slots was seen in use.
pub fn updates_are_answered()
    ensures reported { (last : Numbered) (request : List ℕ) (heading : Heading) (code : Rcode) → judged last request ≡ Some (Code heading code)
        → got Udp true ForNothing last.zone request ≡ got_alone heading code last.zone }
    ensures made { (last : Numbered) (request : List ℕ) (heading : Heading) (version : Numbered) → judged last request ≡ Some (Makes heading version)
        → got Udp true ForNothing last.zone request ≡ got_alone heading NoError version.zone }
    ensures under_way { (words : State Numbered) (at : Phase) (event : WordEvent) (heading : Heading) → heading_of at ≡ Some heading → KeepsHeading heading event (after words at event) }
    ensures ends { (heading : Heading) (owner : ℕ) (entry : Option Entry) → (answer_at (NoSlot heading) ≡ code_reply heading ServFail) × (answer_at (Kept heading owner entry) ≡ code_reply heading NoError) }
{}

/// Whatever lines were played, and while the numbers of versions fit 64 bits, a line that isn't enabled changes nothing.
pub fn refused_lines_change_nothing()
    ensures { (first : List Record) (keep window : ℕ) (lines : List WorldStep) (replies : List WorldReply) (world after : World) (line : WorldStep) (cell : Cell Numbered)
        → play (started first keep window) lines ≡ Some (replies, world) → Shows world.words cell → length cell.published < 2 ^ 64 → turn world line ≡ Some (NotEnabled, after) → after ≡ world }
{}

/// Worked examples, of an update that makes the second version: the first outlives it for whom it was loaded, and the last name that
/// is in use for it buries it; a drop under way takes its steps one at a time, and its name is free at once; and an upgrade between a
/// release and its bury, which finds an owner then.
pub fn examples()
    ensures two_versions { (first second : List Record) (heading : Heading) (request : List ℕ)
        → judged (first_version first) request ≡ Some (Makes heading (record { number = 1; zone = second; changes = Some (changes_between first second) }))
        → replies_of first 0 0 (Whole (Load (codes "a")) ∷ Whole (Update request) ∷ Whole (Load (codes "b"))
        ∷ Whole (Drop (codes "a")) ∷ Whole (Drop (codes "a")) ∷ Whole (Drop (codes "b")) ∷ [])
        ≡ Some (Answered (Owner (codes "a") 0) ∷ Answered (code_reply heading NoError) ∷ Answered (Owner (codes "b") 1)
        ∷ Answered (Buried 0) ∷ NotEnabled ∷ Answered Left ∷ []) }
    ensures one_step_at_a_time { (first second : List Record) (heading : Heading) (request : List ℕ)
        → judged (first_version first) request ≡ Some (Makes heading (record { number = 1; zone = second; changes = Some (changes_between first second) }))
        → replies_of first 0 0 (Whole (Load (codes "a")) ∷ Whole (Update request) ∷ Begin (codes "x") (Drop (codes "a")) ∷ Next (codes "x")
        ∷ Whole (Load (codes "a")) ∷ Next (codes "x") ∷ Next (codes "x") ∷ Next (codes "x") ∷ Next (codes "x") ∷ Next (codes "x") ∷ [])
        ≡ Some (Answered (Owner (codes "a") 0) ∷ Answered (code_reply heading NoError) ∷ Begun ∷ Step step_name.Release
        ∷ Answered (Owner (codes "a") 1) ∷ Step step_name.Bury ∷ Step step_name.Fade ∷ Step step_name.Reset ∷ Last step_name.Free (Buried 0) ∷ NotEnabled ∷ []) }
    ensures weak_lines { (first : List Record) → replies_of first 0 0 (Whole (Load (codes "a")) ∷ Whole (Copy (codes "a") (codes "b")) ∷ Whole (Weak (codes "b") (codes "w"))
        ∷ Whole (Weak (codes "a") (codes "w")) ∷ Whole (Up (codes "w") (codes "c")) ∷ Whole (Fade (codes "w")) ∷ Whole (Fade (codes "w")) ∷ [])
        ≡ Some (Answered (Owner (codes "a") 0) ∷ Answered (Owner (codes "b") 0) ∷ Answered (Owner (codes "w") 0) ∷ NotEnabled ∷ Answered (Owner (codes "c") 0)
        ∷ Answered Faded ∷ NotEnabled ∷ []) }
    ensures raised { (first second : List Record) (heading : Heading) (request : List ℕ)
        → judged (first_version first) request ≡ Some (Makes heading (record { number = 1; zone = second; changes = Some (changes_between first second) }))
        → replies_of first 0 0 (Whole (Load (codes "a")) ∷ Whole (Weak (codes "a") (codes "w")) ∷ Whole (Update request) ∷ Begin (codes "x") (Drop (codes "a"))
        ∷ Next (codes "x") ∷ Whole (Up (codes "w") (codes "b")) ∷ Next (codes "x") ∷ Whole (Drop (codes "b")) ∷ Whole (Up (codes "w") (codes "e")) ∷ Whole (Fade (codes "w")) ∷ [])
        ≡ Some (Answered (Owner (codes "a") 0) ∷ Answered (Owner (codes "w") 0) ∷ Answered (code_reply heading NoError) ∷ Begun ∷ Step step_name.Release
        ∷ Answered (Owner (codes "b") 0) ∷ Last step_name.Bury Left ∷ Answered (Buried 0) ∷ Answered Nothing ∷ Answered Faded ∷ []) }
{}

/// Whatever lines were played, each name in use holds the version that was published with its number, through any reuse of its slot;
/// and while no update is under way, the versions that are kept are the newest, one more than are kept beside the last.
pub fn versions_are_held()
    ensures { (first : List Record) (keep window : ℕ) (lines : List WorldStep) (replies : List WorldReply) (world : World)
        → play (started first keep window) lines ≡ Some (replies, world) → HoldVersions first lines world }
{}

/// When no call is under way and no name is in use, for strong owners or weak, exactly the versions before those that are kept are buried, and all slots are free but
/// one for each version that is kept or in the window.
pub fn versions_before_the_kept_are_buried()
    ensures { (first : List Record) (keep window : ℕ) (lines : List WorldStep) (replies : List WorldReply) (world : World)
        → play (started first keep window) lines ≡ Some (replies, world) → world.names ≡ [] → world.weak_names ≡ [] → world.calls ≡ [] → IsAtRest first keep lines world }
{}

/// Whatever lines were played from a zone on, an IXFR gets the SOA alone where its serial isn't less than that of the version which its
/// name holds, or held where it was begun; else what changed since the version whose serial it tells, which leads there from that one; or,
/// where no entry of the window tells of that serial, or a version after it is buried, the version in whole, which leads there from any. So
/// it is where it is answered at once, in one line, or step by step. The window's entries have the serials of their versions (RFC 1995, 2
/// to 5; RFC 5936, 2.2).
pub fn transfers_lead_to_the_served()
    ensures window { (first : List Record) (keep window : ℕ) (lines : List WorldStep) (replies : List WorldReply) (world : World)
        → play (started first keep window) lines ≡ Some (replies, world) → HaveSerials first lines world }
    ensures at_once { (first : List Record) (keep window : ℕ) (lines : List WorldStep) (replies : List WorldReply) (world : World) (name request : List ℕ) (query : Query) (octets : List (List ℕ))
        → IsZone first → AreOctets lines → play (started first keep window) lines ≡ Some (replies, world) → reads request ≡ Asks query → query.question.rtype.0 ≡ type_IXFR
        → start world (Transfer name request) ≡ Answers (Messages octets) → AnswerFor first lines world world name query octets }
    ensures in_one_line { (first : List Record) (keep window : ℕ) (lines : List WorldStep) (replies : List WorldReply) (world after : World) (name request : List ℕ) (query : Query) (octets : List (List ℕ))
        → IsZone first → AreOctets lines → play (started first keep window) lines ≡ Some (replies, world) → reads request ≡ Asks query → query.question.rtype.0 ≡ type_IXFR
        → turn world (Whole (Transfer name request)) ≡ Some (Answered (Messages octets), after) → AnswerFor first lines world after name query octets }
    ensures in_steps { (first : List Record) (keep window : ℕ) (lines : List WorldStep) (replies : List WorldReply) (world after : World) (place : ℕ) (begun name request : List ℕ) (query : Query) (step : StepName) (octets : List (List ℕ))
        → IsZone first → AreOctets lines → play (started first keep window) lines ≡ Some (replies, world) → reads request ≡ Asks query → query.question.rtype.0 ≡ type_IXFR
        → slice_get lines place ≡ Some (Begin begun (Transfer name request)) → IsOpen lines replies place (length lines) begun
        → turn world (Next begun) ≡ Some (Last step (Messages octets), after) → AnswerSince first keep window lines world after place name query octets }
{}

/// Whatever lines were played, at most one of them is told that it has buried a number; nobody owns that number then, and it isn't the
/// last.
pub fn burials_are_reported_once()
    ensures once { (first : List Record) (keep window : ℕ) (lines : List WorldStep) (replies : List WorldReply) (world : World) (number : ℕ)
        → play (started first keep window) lines ≡ Some (replies, world) → length (filter (tells_buried number) replies) ≤ 1 }
    ensures gone { (first : List Record) (keep window : ℕ) (lines : List WorldStep) (replies : List WorldReply) (world : World) (number : ℕ)
        → play (started first keep window) lines ≡ Some (replies, world) → 0 < length (filter (tells_buried number) replies) → IsGone world number }
{}

/// A line that goes on with a call takes one step on a word, and tells it, or it isn't enabled and changes nothing; one that begins a
/// call takes none.
pub fn lines_take_one_step()
    ensures next { (world after : World) (name : List ℕ) (reply : WorldReply) → turn world (Next name) ≡ Some (reply, after) → TakesOneStep world reply after }
    ensures begin_call { (world after : World) (name : List ℕ) (call : Call) (reply : WorldReply) → turn world (Begin name call) ≡ Some (reply, after) → after.words ≡ world.words }
{}
