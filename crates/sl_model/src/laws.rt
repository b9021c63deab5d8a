//! Laws of the definitions, each the contract of a function that does nothing.

ghost use Rattle.std.specs.Prelude.{◌≡◌, ℕ, ◌+◌, ◌<◌, ◌^◌, Some, is_some};
ghost use Rattle.sl_model.specs.declared.instr.Instr.{Instr};
ghost use Rattle.sl_model.specs.declared.instr.ImmediateOp.{ImmediateOp};
ghost use Rattle.sl_model.specs.declared.instr.LoadOp.{LoadOp};
ghost use Rattle.sl_model.specs.declared.instr.MulDivOp.{MulDivOp};
ghost use Rattle.sl_model.specs.declared.instr.RegisterOp.{RegisterOp};
ghost use Rattle.sl_model.specs.declared.instr.ShiftOp.{ShiftOp};
ghost use Rattle.sl_model.specs.Arithmetic as value;
ghost use Rattle.sl_model.specs.Pages.{Pages, ArePages, load_at, store_at};
ghost use Rattle.sl_model.specs.State.{State, IsState, Fits};
ghost use Rattle.sl_model.specs.Step.{Stepped, step};
ghost use Rattle.sl_model.specs.Stores.{IsStored};
ghost use Rattle.sl_model.specs.Words.{IsWord, Means, meaning};

/// A word means an instruction by its bits exactly where the function of words says so.
pub fn words_mean()
    ensures found { (word : ℕ) (instr : Instr)
        → IsWord word → meaning word ≡ Some instr → Means word instr }
    ensures only { (word : ℕ) (instr : Instr) → Means word instr → meaning word ≡ Some instr }
{}

/// No word means two instructions.
pub fn one_meaning()
    ensures { (word : ℕ) (a b : Instr) → Means word a → Means word b → a ≡ b }
{}

/// No instruction has two words.
pub fn one_word()
    ensures { (instr : Instr) (a b : ℕ) → Means a instr → Means b instr → a ≡ b }
{}

/// What the operations give on words are words.
pub fn operations_give_words()
    ensures immediate { (op : ImmediateOp) (a b : ℕ)
        → IsWord a → IsWord b → IsWord (value.immediate_value op a b) }
    ensures shift { (op : ShiftOp) (a amount : ℕ)
        → IsWord a → IsWord (value.shift_value op a amount) }
    ensures register { (op : RegisterOp) (a b : ℕ)
        → IsWord a → IsWord b → IsWord (value.register_value op a b) }
    ensures mul_div { (op : MulDivOp) (a b : ℕ)
        → IsWord a → IsWord b → IsWord (value.mul_div_value op a b) }
    ensures load { (op : LoadOp) (n : ℕ)
        → n < 256 ^ value.load_width op → IsWord (value.load_value op n) }
{}

/// A load of the bytes that were stored gives the value that was stored, every other byte stays,
/// and no page is mapped or unmapped. A store is done exactly where a load of the same bytes is.
pub fn stores_are_loaded()
    ensures done { (pages : Pages) (address width value : ℕ)
        → is_some (store_at pages address width value) ≡ is_some (load_at pages address width) }
    ensures stored { (before after : Pages) (address width value : ℕ)
        → store_at before address width value ≡ Some after
        → IsStored address width value before after }
    ensures pages { (before after : Pages) (address width value : ℕ)
        → store_at before address width value ≡ Some after → ArePages before → ArePages after }
{}

/// A step leads from a state to a state, below the end of the count.
pub fn steps_lead_to_states()
    ensures { (s t : State) → IsState s → s.count + 1 < 2 ^ 64 → step s ≡ Stepped t → IsState t }
{}

/// A step keeps the layout, and leads from a state that fits it to one that fits it.
pub fn steps_keep_the_layout()
    ensures layout { (s t : State) → step s ≡ Stepped t → t.layout ≡ s.layout }
    ensures fits { (s t : State) → Fits s → step s ≡ Stepped t → Fits t }
{}
