//! Laws: each function says what holds, in its contract, and does nothing; to call it is to cite it.
ghost use Rattle.std.specs.Prelude.{◌≡◌, ◌||◌, ℕ, ℤ, List, false, true, None, Some};
ghost use Rattle.jdwp_layout.specs.CommandNumbers.{is_command, CLASS_INVOKE, INTERFACE_INVOKE, OBJECT_INVOKE};
ghost use Rattle.jdwp_layout.specs.Meanings.{ScalarMeaning};
ghost use Rattle.jdwp_machine.specs.declared.profile.Profile.TheVariants.{Jdi};
ghost use Rattle.jdwp_machine.specs.Laws.{IsLawful};
ghost use Rattle.jdwp_script.specs.Parts.{ClassPart, ScriptPart};
ghost use Rattle.jdwp_script.specs.Limits.{passes_limit};
ghost use Rattle.jdwp_script.specs.Twice.{has_id_twice};
ghost use Rattle.jdwp_script.specs.TooWide.{has_wide_id};
ghost use Rattle.jdwp_script.specs.Faults.{first_fault};
ghost use Rattle.jdwp_script_machine.specs.InvocationAnswers.{is_object_in};
ghost use Rattle.jdwp_script_machine.specs.InvocationRefusals.{Invokes, object_data, type_data};
ghost use Rattle.jdwp_script_machine.specs.Made.{id_answer, string_class};
ghost use Rattle.jdwp_script_machine.specs.ObjectAnswers.{text_answer, type_answer};
ghost use Rattle.jdwp_script_machine.specs.Sites.{class_in};
ghost use Rattle.jdwp_script_machine.specs.States.{State, opening};
ghost use Rattle.jdwp_script_machine.specs.Told.{IsFree, type_asked_of, value_asked};
ghost use Rattle.jdwp_script_machine.specs.Runs.{Deed, after_all, MayAllBe, CanGoOn, NeverRunsOut};
ghost use Rattle.jdwp_script_machine.specs.Sound.{IsSound};
ghost use Rattle.jdwp_script_machine.specs.ScriptMeaning.{script_meaning};

/// What a script means is a lawful machine.
pub fn scripts_are_lawful()
    ensures { IsLawful script_meaning }
{}

/// The machine of a script that passes no limit, has no id twice and none that is too wide begins in one of its states.
pub fn scripts_begin_soundly()
    ensures { (live : ℕ) (script : ScriptPart) → passes_limit live script ≡ false
        → has_id_twice script ≡ false → has_wide_id script ≡ false → IsSound (opening script) }
{}

/// Whatever threads step, end or have slots written, and strings are made, from where a script with no fault begins: a thread that lives has run out only
/// where it has used up its steps, and a step that is left can be made.
pub fn scripts_go_on()
    ensures { (live : ℕ) (script : ScriptPart) (deeds : List Deed) → first_fault live script ≡ None
        → MayAllBe (opening script) deeds → CanGoOn (after_all (opening script) deeds) }
{}

/// Whatever threads step, end or have slots written, and strings are made, from where a script with no fault begins: a thread that lives and whose steps end with an
/// `again` has not run out.
pub fn loops_go_on_for_ever()
    ensures { (live : ℕ) (script : ScriptPart) (deeds : List Deed) → first_fault live script ≡ None
        → MayAllBe (opening script) deeds → NeverRunsOut (after_all (opening script) deeds) }
{}

/// In the profile `Jdi` an invocation is answered what the script says that its method returns. It is refused with `INVALID_OBJECT`,
/// `INVALID_CLASS`, `INVALID_METHODID` and `NOT_IMPLEMENTED` exactly where the object is none, the class is none, the class has no such
/// method, and the script does not say what the method returns.
pub fn invocations_return_what_scripts_say()
    ensures types { (s : State) (set number class thread method : ℕ) (arguments : List (List
        ScalarMeaning)) (options : ℤ) → IsSound s → s.profile ≡ Jdi
        → (is_command CLASS_INVOKE set number || is_command INTERFACE_INVOKE set number) ≡ true
        → Invokes s.script true class method (script_meaning.query s (record { set = set; number = number; content = type_data class thread method arguments options })) }
    ensures objects { (s : State) (object thread class method : ℕ) (arguments : List (List
        ScalarMeaning)) (options : ℤ) → IsSound s → s.profile ≡ Jdi
        → Invokes s.script (is_object_in s object) class method (script_meaning.query s (record { set = OBJECT_INVOKE.set; number = OBJECT_INVOKE.number; content = object_data object thread class method arguments options })) }
{}

/// A string that is made has an id that was nothing's before. StringReference.Value of it answers its text, and goes on to do so, whatever
/// threads step, end or have slots written, and strings are made; and ObjectReference.ReferenceType of it answers the first class that is
/// named `java.lang.String`.
pub fn strings_that_are_made_are_told()
    ensures new { (s : State) (text : List ℕ) (id : ℕ) → IsSound s
        → script_meaning.made_answer s text ≡ id_answer id → IsFree s id }
    ensures told { (s : State) (text : List ℕ) (id : ℕ) → IsSound s
        → script_meaning.made_answer s text ≡ id_answer id
        → script_meaning.query (script_meaning.made s text) (value_asked id) ≡ text_answer text }
    ensures stays { (s : State) (deeds : List Deed) (id : ℕ) (text : List ℕ)
        → script_meaning.query s (value_asked id) ≡ text_answer text
        → script_meaning.query (after_all s deeds) (value_asked id) ≡ text_answer text }
    ensures typed { (s : State) (text : List ℕ) (id : ℕ) (c : ClassPart) → IsSound s
        → script_meaning.made_answer s text ≡ id_answer id → string_class s.script ≡ Some c
        → class_in s.script c.id ≡ Some c
        → script_meaning.query (script_meaning.made s text) (type_asked_of id) ≡ type_answer c }
{}
