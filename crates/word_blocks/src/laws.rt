//! Laws of code that stands in memory, each the contract of a function that does nothing. Further
//! laws, of runs with what they keep on the way, stand in the lemma modules of proofs/.

ghost use Rattle.std.specs.Prelude.{◌≡◌, ℕ, ◌+◌, ◌*◌, ◌^◌, ◌<◌, ◌≤◌, if◌then◌else◌, List, length, Some, None, IfSome, take, slice_get};
ghost use Rattle.sl_model.specs.declared.instr.BranchOp.{BranchOp};
ghost use Rattle.sl_model.specs.declared.instr.LoadOp.{LoadOp};
ghost use Rattle.sl_model.specs.declared.instr.StoreOp.{StoreOp};
ghost use Rattle.sl_model.specs.declared.instr.Instr.{Instr};
ghost use Rattle.sl_model.specs.declared.instr.Instr.TheVariants.{Jal, Jalr, Branch, Load, Store, Ecall};
ghost use Rattle.sl_model.specs.declared.traps.TheConstants.{LOAD_FAULT, STORE_FAULT};
ghost use Rattle.sl_model.specs.Arithmetic.{is_taken, load_width, store_width};
ghost use Rattle.sl_model.specs.Pages.{load_at};
ghost use Rattle.sl_model.specs.Runs.{steps};
ghost use Rattle.sl_model.specs.State.{State};
ghost use Rattle.sl_model.specs.Step.{Stepped, Called, Trapped, step};
ghost use Rattle.word_blocks.specs.Code.{CodeStands, HasBlock};
ghost use Rattle.word_blocks.specs.Configuration.{Configuration, IsAt, at_place, address, read, write, does, exec};
ghost use Rattle.word_blocks.specs.Jumps.{jump_between, words_further};

/// A step of the machine does what the instruction at its place does to a configuration, where the
/// code stands in memory.
pub fn instructions_are_steps()
    ensures { (start : ℕ) (code : List Instr) (instr : Instr) (c d : Configuration) (s : State)
        → CodeStands start code c.pages → slice_get code c.place ≡ Some instr → IsAt start c s
        → does start instr c ≡ Some d
        → (t : State) × (step s ≡ Stepped t) × IsAt start d t }
{}

/// The machine follows a block: after each number of steps it stands where as many instructions of
/// the block lead, as long as the code stands in the memory before each of them.
pub fn blocks_are_run()
    ensures { (start : ℕ) (code block : List Instr) (c : Configuration) (s : State)
        → HasBlock code c.place block → IsAt start c s
        → ((k : ℕ) → k < length block
        → IfSome (exec start (take k block) c) (λ d. CodeStands start code d.pages))
        → (k : ℕ) → k ≤ length block
        → IfSome (exec start (take k block) c) (λ d. IsAt start d (steps k s)) }
{}

/// A jump leads to the place that it names and leaves the place after it in its register. A branch
/// leads so many words further where its condition holds, else to the next place.
pub fn jumps_are_taken()
    ensures relative { (start : ℕ) (code : List Instr) (c : Configuration) (s : State) (rd to : ℕ)
        → CodeStands start code c.pages → IsAt start c s
        → slice_get code c.place ≡ Some (Jal rd (jump_between c.place to))
        → to ≤ length code → to < c.place + 2 ^ 18 → c.place ≤ to + 2 ^ 18
        → let x = write c.registers rd (start + 4 * (c.place + 1)) in
        (t : State) × (step s ≡ Stepped t) × IsAt start (at_place to x c.pages) t }
    ensures register { (start : ℕ) (code : List Instr) (c : Configuration) (s : State)
        (rd rs1 offset to : ℕ)
        → CodeStands start code c.pages → IsAt start c s
        → slice_get code c.place ≡ Some (Jalr rd rs1 offset)
        → address c.registers rs1 offset ≡ start + 4 * to → to ≤ length code
        → let x = write c.registers rd (start + 4 * (c.place + 1)) in
        (t : State) × (step s ≡ Stepped t) × IsAt start (at_place to x c.pages) t }
    ensures branch { (start : ℕ) (code : List Instr) (c : Configuration) (s : State)
        (op : BranchOp) (rs1 rs2 count : ℕ)
        → CodeStands start code c.pages → IsAt start c s
        → slice_get code c.place ≡ Some (Branch op rs1 rs2 (words_further count))
        → count < 2 ^ 10 → c.place + count ≤ length code
        → let holds = is_taken op (read c.registers rs1) (read c.registers rs2) in
        let to = if holds then c.place + count else c.place + 1 in
        (t : State) × (step s ≡ Stepped t) × IsAt start (at_place to c.registers c.pages) t }
{}

/// A run comes to its end at an ECALL, and at a load or a store of bytes of which one is not mapped.
pub fn runs_end()
    ensures call { (start : ℕ) (code : List Instr) (c : Configuration) (s : State)
        → CodeStands start code c.pages → IsAt start c s
        → slice_get code c.place ≡ Some Ecall → step s ≡ Called }
    ensures load { (start : ℕ) (code : List Instr) (c : Configuration) (s : State)
        (op : LoadOp) (rd rs1 offset : ℕ)
        → CodeStands start code c.pages → IsAt start c s
        → slice_get code c.place ≡ Some (Load op rd rs1 offset)
        → load_at c.pages (address c.registers rs1 offset) (load_width op) ≡ None
        → step s ≡ Trapped LOAD_FAULT }
    ensures store { (start : ℕ) (code : List Instr) (c : Configuration) (s : State)
        (op : StoreOp) (rs1 rs2 offset : ℕ)
        → CodeStands start code c.pages → IsAt start c s
        → slice_get code c.place ≡ Some (Store op rs1 rs2 offset)
        → load_at c.pages (address c.registers rs1 offset) (store_width op) ≡ None
        → step s ≡ Trapped STORE_FAULT }
{}
