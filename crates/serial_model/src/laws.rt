//! What a script does alone, and what it does with answers.
ghost use Rattle.std.specs.Prelude.{◌≡◌, ◌≤◌, [], ◌∷◌, ◌++◌, List, Some, length};
ghost use Rattle.std.specs.FinMap as finite;
ghost use Rattle.value_form.specs.declared.endings.Ending.{Ending};
ghost use Rattle.value_form.specs.declared.objects.ObjectId.{ObjectId};
ghost use Rattle.value_form.specs.declared.values.Value.{Value};
ghost use Rattle.value_form.specs.declared.transcripts.Line.{Line};
ghost use Rattle.value_form.specs.Objects.{Objects, value_at};
ghost use Rattle.value_form.specs.Mirror.{Block};
ghost use Rattle.script_meaning.specs.Meaning as meaning;
ghost use Rattle.script_meaning.specs.Meaning.{Request, ToRead, ToWrite, Asks, Over, Answer, Got, Stored, Answers, answers_of};
ghost use Rattle.pseudo_time.specs.Lists.{Every};
ghost use Rattle.serial_model.specs.Asked.{IsAnswerTo, AreAsked};
ghost use Rattle.serial_model.specs.Ranges.{BlockInRange, StopInRange};
ghost use Rattle.serial_model.specs.Requests.{AsksInRange, AnswerHasBytes};
ghost use Rattle.serial_model.specs.Questions.{Tree, denote, walk, talked_alone, talked, left_by, left_after, stop, request_of, AnswersOf, IsFrontOf, IsTalkOf};

/// A script alone, and a script with a list of answers, are what its tree of questions says.
pub fn law_of_questions()
    ensures alone { (script : Block) (m : Objects) → meaning.perform script m ≡ (record {
      stop = (talked_alone (denote script) m).stop;
      lines = (talked_alone (denote script) m).lines;
      world = left_by (denote script) m;
    }) }
    ensures answered { (script : Block) (ans : List Answer) →
        IsTalkOf (talked (denote script) ans) (meaning.talk script ans) }
    ensures stops { (t : Tree) (ans : List Answer) → (talked t ans).stop ≡ stop t ans }
{}

/// The answers that a script has alone give what it does alone; a proper front of them gives a front
/// of its transcript, and stops at the request of the next line that is no print; and more answers
/// only extend a transcript.
pub fn law_of_answers()
    ensures whole { (script : Block) (m : Objects) →
        IsTalkOf (talked_alone (denote script) m) (meaning.talk script (answers_of (meaning.perform script m).lines)) }
    ensures front { (script : Block) (m : Objects) (before rest : List Line) (l : Line) (q : Request) →
        (meaning.perform script m).lines ≡ before ++ (l ∷ rest) → request_of l ≡ Some q →
        IsTalkOf (record { lines = before; stop = Asks q }) (meaning.talk script (answers_of before)) }
    ensures fronts { (lines : List Line) (pre post : List Answer) (a : Answer) → answers_of lines ≡ pre ++ (a ∷ post) →
        (before : List Line) × (l : Line) ×
        (rest : List Line) × (q : Request) × (lines ≡ before ++ (l ∷ rest)) × (request_of l ≡ Some q) ×
        (answers_of before ≡ pre) }
    ensures more { (script : Block) (ans more : List Answer) →
        IsFrontOf (meaning.talk script ans).lines (meaning.talk script (ans ++ more)).lines }
{}

/// Answers that agree with a map: each was what the map held then, with the script's own writes in it.
/// No answers agree; an answer to a read with what the map holds, and to a write, agrees with those
/// before; there are at most 10,000; and once the script has ended, its transcript, ending and map are
/// those that it has alone over the map.
pub fn law_of_agreement()
    ensures begins { (t : Tree) (m : Objects) → AnswersOf t [] m × (left_after t [] m ≡ m) }
    ensures read { (t : Tree) (ans : List Answer) (m : Objects) (o : ObjectId) → AnswersOf t ans m →
        stop t ans ≡ Asks (ToRead o) →
        AnswersOf t (ans ++ Got (value_at (left_after t ans m) o) ∷ []) m ×
        (left_after t (ans ++ Got (value_at (left_after t ans m) o) ∷ []) m ≡ left_after t ans m) }
    ensures write { (t : Tree) (ans : List Answer) (m : Objects) (o : ObjectId) (a : Value) → AnswersOf t ans m →
        stop t ans ≡ Asks (ToWrite o a) →
        AnswersOf t (ans ++ Stored ∷ []) m ×
        (left_after t (ans ++ Stored ∷ []) m ≡ finite.insert (left_after t ans m) o a) }
    ensures few { (script : Block) (ans : List Answer) (m : Objects) → AnswersOf (denote script) ans m →
        length ans ≤ 10000 }
    ensures whole { (t : Tree) (ans : List Answer) (m : Objects) (e : Ending) → AnswersOf t ans m →
        stop t ans ≡ Over e → (talked_alone t m ≡ talked t ans) ×
        (left_by t m ≡ left_after t ans m) }
{}

/// Answers of which each is to what the script asks after those before it: one more may follow where
/// it is to what is asked then, those before one are such answers too, and there are at most 10,000.
pub fn law_of_asking()
    ensures begins { (t : Tree) → AreAsked t [] }
    ensures next { (t : Tree) (ans : List Answer) (a : Answer) → AreAsked t ans → IsAnswerTo (stop t ans) a →
        AreAsked t (ans ++ a ∷ []) }
    ensures front { (t : Tree) (pre post : List Answer) (a : Answer) → AreAsked t (pre ++ a ∷ post) →
        AreAsked t pre × IsAnswerTo (stop t pre) a }
    ensures few { (script : Block) (ans : List Answer) → AreAsked (denote script) ans → length ans ≤ 10000 }
{}

/// Where the numbers, texts, objects and lines of a script are in their ranges, and so is what it
/// reads, what it requests can be stored and sent: its objects and values have bytes, and it ends at
/// a line that an outcome can say.
pub fn law_of_requests()
    ensures requests { (script : Block) → BlockInRange script → AsksInRange (denote script) }
    ensures stops { (script : Block) (answers : List Answer) → BlockInRange script → Every AnswerHasBytes answers →
        StopInRange (meaning.talk script answers).stop }
    ensures after { (t : Tree) (answers : List Answer) → AsksInRange t → Every AnswerHasBytes answers →
        StopInRange (stop t answers) }
{}

/// In every world that answers requests, a script does what the walk of that world through its tree
/// of questions does.
pub fn law_of_worlds<W>()
    ensures { (answers : Answers W) (script : Block) (w : W) →
        meaning.carried_out answers script w ≡ walk answers (denote script) [] w }
{}
