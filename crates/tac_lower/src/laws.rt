//! What holds of typed programs and of code that is made in steps, whatever makes it.

ghost use Rattle.std.specs.Prelude.{◌≡◌, ℕ, ◌+◌, ◌≤◌, Bool, List, true, false, length, map, Option, Some, None};
ghost use Rattle.std.specs.Prelude.{unwrap_or, slice_get};
ghost use Rattle.ck_base.specs.declared.positions.Pos.{Pos};
ghost use Rattle.ck_int.specs.declared.kinds.IntKind.TheVariants as int;
ghost use Rattle.c_tree.specs.Expressions.{given_type};
ghost use Rattle.c_tree.specs.Libraries.{Asked, Given};
ghost use Rattle.c_tree.specs.Terms.{terms, type_of};
ghost use Rattle.c_tree.specs.declared.typed.Expr.{Expr};
ghost use Rattle.c_tree.specs.declared.typed.FunDef.{FunDef};
ghost use Rattle.c_tree.specs.declared.typed.Stmt.{Stmt};
ghost use Rattle.c_tree.specs.Layout.{bare};
ghost use Rattle.c_tree.specs.Types.{Ty, Tys, Function, Pointer, compatible};
ghost use Rattle.c_tree.specs.Views.{IsOrdered};
ghost use Rattle.c_tree.specs.WellTyped.{Frame, Inside, type_in, ArgumentsFit, AllAskedFit, list_of};
ghost use Rattle.tac_ir.specs.WellFormed.{begins_with, param_kinds, function_fits, return_fits, signature_of};
ghost use Rattle.tac_ir.specs.WellFormed.{signature_of_function};
ghost use Rattle.tac_ir.specs.Effects.{kind_of};
ghost use Rattle.tac_ir.specs.declared.code.CapWork.{CapWork};
ghost use Rattle.tac_ir.specs.declared.code.LibOp.{LibOp};
ghost use Rattle.tac_ir.specs.declared.code.LibOp.TheVariants as lib;
ghost use Rattle.tac_ir.specs.declared.code.TacFun.{TacFun};
ghost use Rattle.tac_ir.specs.declared.code.TacInstr.{TacInstr};
ghost use Rattle.tac_ir.specs.declared.code.TacKind.{TacKind};
ghost use Rattle.tac_ir.specs.declared.code.TacKind.TheVariants as kinds;
ghost use Rattle.tac_lower.specs.declared.calls.Intrinsic.TheVariants as intrinsics;
ghost use Rattle.tac_lower.specs.declared.calls.Service.TheVariants as services;
ghost use Rattle.tac_ir.specs.declared.code.TacInstr.TheVariants as instr;
ghost use Rattle.tac_emit.specs.declared.emitter.Emitter.{Emitter};
ghost use Rattle.tac_emit.specs.Emitted.{HasKind, HasCapability, SameCapability, WorkFits, IsTemp, IsOpen, Stands};
ghost use Rattle.tac_emit.specs.Emitted.{Labelled, Forked, Turned, Adds, Grown, IsWell, Pushed, WellListed};
ghost use Rattle.tac_emit.specs.Emitted.{open_labels};
ghost use Rattle.tac_lower.specs.Nodes.{kept_as, kind_in, scalar_in, expression, IsTyped, NodeFits};
ghost use Rattle.tac_lower.specs.Parts.{IsPlaced, PartFits};
ghost use Rattle.tac_lower.specs.Scenes.{Scene, Lowered};
ghost use Rattle.tac_lower.specs.Services.{ServiceAsks};
ghost use Rattle.tac_lower.specs.Signed.{kept_parameter, signature_as, taken_kinds, HaveKinds, ResultFits, ReturnFits};
ghost use Rattle.tac_lower.specs.Signed.{ServiceFits, ProgramFits, NamesType};
ghost use Rattle.tac_lower.specs.Tables.{target_by, given_by};
ghost use Rattle.tac_lower.specs.declared.context.Home.{Home};
ghost use Rattle.tac_lower.specs.declared.types.TypeFacts.{TypeFacts};

use c_tree::Typed;

/// Each expression of a typed function has operands that are typed too, is kept as its kind says, and weighs what they
/// weigh and one more (C11 6.5).
pub fn typed_expressions_fit()
    ensures fit { (f : Frame) (k : ℕ) (e : Expr) → IsOrdered f.program → IsTyped f k
        → slice_get f.program.exprs k ≡ Some e → NodeFits f k e.kind }
{}

/// Each statement of a typed function has expressions and statements that are typed too, and weighs what they weigh and
/// one more, with each label of a `switch` (C11 6.8).
pub fn typed_statements_fit()
    ensures { (f : Frame) (i : Inside) (k : ℕ) (s : Stmt) → IsOrdered f.program → IsPlaced f i k
        → slice_get f.program.stmts k ≡ Some s → PartFits f i k s.kind }
{}

/// What a function gives and takes, by the number of its type, is what the type says as a tree; a function that is
/// named has the signature of each type that agrees with its own; a pointer's and a function's type number what they
/// point to and give; and temps that are kept as the parameters begin with these.
pub fn signatures_fit()
    ensures signature { (p : Typed) (t : ℕ) (r : Ty) (ps : Tys) → IsOrdered p → type_in p t ≡ Function r ps
        → signature_of p t ≡ Some (signature_as r ps) }
    ensures named { (p : Typed) (n : ℕ) (d : FunDef) (r : Ty) (ps : Tys) → IsOrdered p → slice_get p.funs n ≡ Some d
        → compatible (Function r ps) (type_in p d.of) ≡ true → signature_of_function p n ≡ Some (signature_as r ps) }
    ensures pointed { (p : Typed) (t : ℕ) (s : Ty) → IsOrdered p → type_in p t ≡ Pointer s
        → NamesType p (target_by (bare p.types t)) s }
    ensures given { (p : Typed) (t : ℕ) (r : Ty) (ps : Tys) → IsOrdered p → type_in p t ≡ Function r ps
        → NamesType p (given_by (bare p.types t)) r }
    ensures parameters { (p : Typed) (d : FunDef) (ks : List TacKind) → IsOrdered p
        → ((j x : ℕ) → slice_get d.params j ≡ Some x → slice_get ks j ≡ Some (kept_parameter p d x))
        → begins_with ks (param_kinds p d) ≡ true }
{}

/// The arguments of a library function or intrinsic are in temps of the kinds that it asks for, where they are typed as
/// it asks, and its result in one of the kind that it gives.
pub fn library_calls_fit()
    ensures library { (p : Typed) (e : Emitter) (op : LibOp) (takes : List Asked) (gives : Given) (args ts : List ℕ)
        (to : Option ℕ) (k : ℕ) → ServiceAsks (services.Library op) takes gives
        → AllAskedFit takes (terms (map (expression p) args))
        → type_of (expression p k) ≡ given_type gives (list_of (terms (map (expression p) args)))
        → HaveKinds e ts (map (kind_in p) args) → ResultFits e to (scalar_in p k) → ServiceFits e op to ts }
    ensures exit { (p : Typed) (e : Emitter) (takes : List Asked) (gives : Given) (args ts : List ℕ)
        → ServiceAsks services.Exit takes gives → AllAskedFit takes (terms (map (expression p) args))
        → HaveKinds e ts (map (kind_in p) args) → ServiceFits e lib.Exit None ts }
    ensures work { (p : Typed) (e : Emitter) (takes : List Asked) (gives : Given) (args ts : List ℕ)
        (k to a : ℕ) (b : Option ℕ) → AllAskedFit takes (terms (map (expression p) args))
        → type_of (expression p k) ≡ given_type gives (list_of (terms (map (expression p) args)))
        → HaveKinds e ts (map (kind_in p) args) → HasKind e to (kind_in p k)
        → a ≡ unwrap_or (slice_get ts 0) 0 → b ≡ slice_get ts 1
        → (op : CapWork) → ServiceAsks (services.Intrinsic (intrinsics.Work op)) takes gives → WorkFits e op to a b }
    ensures address { (p : Typed) (e : Emitter) (takes : List Asked) (gives : Given) (args ts : List ℕ)
        (k to a : ℕ) (b : Option ℕ) → AllAskedFit takes (terms (map (expression p) args))
        → type_of (expression p k) ≡ given_type gives (list_of (terms (map (expression p) args)))
        → HaveKinds e ts (map (kind_in p) args) → HasKind e to (kind_in p k)
        → a ≡ unwrap_or (slice_get ts 0) 0 → b ≡ slice_get ts 1
        → ServiceAsks (services.Intrinsic intrinsics.Address) takes gives
        → HasCapability e a × HasKind e to (kinds.Int int.U64) }
    ensures bounds { (p : Typed) (e : Emitter) (takes : List Asked) (gives : Given) (args ts : List ℕ)
        (k to a : ℕ) (b : Option ℕ) → AllAskedFit takes (terms (map (expression p) args))
        → type_of (expression p k) ≡ given_type gives (list_of (terms (map (expression p) args)))
        → HaveKinds e ts (map (kind_in p) args) → HasKind e to (kind_in p k)
        → a ≡ unwrap_or (slice_get ts 0) 0 → b ≡ slice_get ts 1
        → (exact : Bool) → ServiceAsks (services.Intrinsic (intrinsics.Bounds exact)) takes gives
        → SameCapability e to a × HasKind e (unwrap_or b 0) (kinds.Int int.U64) }
{}

/// Code stays well formed where a jump or a branch to a label is added that does not stand so far, and where a turn and
/// a jump back to a label that stands are.
pub fn jumps_keep_code_well_formed()
    ensures jump { (a b : Emitter) (l : ℕ) → Pushed a b (instr.Jump l) → IsOpen a l → Grown a b }
    ensures branch { (a b : Emitter) (on : ℕ) (when : Bool) (l : ℕ) → Pushed a b (instr.Branch on when l)
        → IsOpen a l → IsTemp a on → Grown a b }
    ensures back { (a b c : Emitter) (l : ℕ) → Pushed a b instr.Turn → Pushed b c (instr.Jump l) → Stands a l
        → Grown a c }
{}

/// Code stays well formed where an instruction is added that names a part of the program which is there, with temps of
/// the kinds that it asks: a call, by the signature of the function; a library function; a return; a global, literal,
/// function or object.
pub fn calls_keep_code_well_formed()
    ensures call { (p : Typed) (d : FunDef) (types : List TypeFacts) (homes : List Home) (a b : Emitter)
        (to : Option ℕ) (n : ℕ) (args : List ℕ) (ks : List TacKind) (r : Ty) (ps : Tys)
        → Scene p d types homes a → signature_of_function p n ≡ Some (signature_as r ps) → HaveKinds a args ks
        → map kind_of ks ≡ taken_kinds ps → ResultFits a to (kept_as r)
        → Pushed a b (instr.Call to n args) → Lowered p d types homes a b 0 }
    ensures call_value { (p : Typed) (d : FunDef) (types : List TypeFacts) (homes : List Home) (a b : Emitter)
        (to : Option ℕ) (v t : ℕ) (args : List ℕ) (at : Pos) (ks : List TacKind) (r : Ty) (ps : Tys)
        → Scene p d types homes a → HasCapability a v → signature_of p t ≡ Some (signature_as r ps)
        → HaveKinds a args ks → map kind_of ks ≡ taken_kinds ps → ResultFits a to (kept_as r)
        → Pushed a b (instr.CallValue to v t args at) → Lowered p d types homes a b 0 }
    ensures service { (p : Typed) (d : FunDef) (types : List TypeFacts) (homes : List Home) (a b : Emitter)
        (op : LibOp) (to : Option ℕ) (args : List ℕ)
        → Scene p d types homes a → ServiceFits a op to args → Pushed a b (instr.Lib op to args)
        → Lowered p d types homes a b 0 }
    ensures given { (p : Typed) (d : FunDef) (types : List TypeFacts) (homes : List Home) (a b : Emitter)
        (v : Option ℕ) (r : Ty) (ps : Tys)
        → Scene p d types homes a → signature_of p d.of ≡ Some (signature_as r ps) → ReturnFits a (kept_as r) v
        → Pushed a b (instr.Return v) → Lowered p d types homes a b 0 }
    ensures part { (p : Typed) (d : FunDef) (types : List TypeFacts) (homes : List Home) (a b : Emitter) (i : TacInstr)
        → Scene p d types homes a → ProgramFits p d a i → Pushed a b i → Lowered p d types homes a b 0 }
    ensures arguments { (p : Typed) (ps : Tys) (args : List ℕ) → ArgumentsFit ps (terms (map (expression p) args))
        → map kind_of (map (kind_in p) args) ≡ taken_kinds ps }
{}

/// Well-formed code in which each label stands is that of a function with a Return behind it, and a function that has
/// such code for its parameters is well formed.
pub fn finished_code_is_well_formed()
    ensures ends { (p : Typed) (d : FunDef) (a b : Emitter) (v : Option ℕ) → IsWell p d a
        → ((l : ℕ) → open_labels a l ≡ false) → Pushed a b (instr.Return v)
        → return_fits p d b.kinds.items b.code.items (signature_of p d.of) v ≡ true
        → WellListed p d b.kinds.items b.code.items b.code.items }
    ensures function { (p : Typed) (d : FunDef) (f : TacFun) → f.params ≡ length d.params → f.params ≤ f.temps
        → length f.kinds ≡ f.temps → begins_with f.kinds (param_kinds p d) ≡ true → WellListed p d f.kinds f.code f.code
        → function_fits p d f ≡ true }
{}

/// Code that is added for one part of a function and then for another is code for both, of as many temps and labels.
/// That of a choice has two labels more, which are open until they stand; and what is jumped over has one.
pub fn parts_add_up()
    ensures nothing { (p : Typed) (d : FunDef) (types : List TypeFacts) (homes : List Home) (a : Emitter) (q : ℕ)
        → Scene p d types homes a → Lowered p d types homes a a q }
    ensures grown { (p : Typed) (d : FunDef) (types : List TypeFacts) (homes : List Home) (a b : Emitter) (m n q : ℕ)
        → Scene p d types homes a → Grown a b → Adds a b m n → m ≤ q → n ≤ q → Lowered p d types homes a b q }
    ensures both { (p : Typed) (d : FunDef) (types : List TypeFacts) (homes : List Home) (a b c : Emitter) (m n q : ℕ)
        → Lowered p d types homes a b m → Lowered p d types homes b c n → m + n ≤ q → Lowered p d types homes a c q }
    ensures labels { (p : Typed) (d : FunDef) (types : List TypeFacts) (homes : List Home) (a b : Emitter) (l m : ℕ)
        → Scene p d types homes a → Forked a b l m → IsOpen b l × IsOpen b m }
    ensures choice { (p : Typed) (d : FunDef) (types : List TypeFacts) (homes : List Home) (a b c e g h : Emitter)
        (l m i j q : ℕ)
        → Scene p d types homes a → Forked a b l m → Lowered p d types homes b c i → Turned c e l → Adds c e 0 0
        → Lowered p d types homes e g j
        → Pushed g h (instr.Label m) → i + j + 2 ≤ q → Lowered p d types homes a h q }
    ensures jumped { (p : Typed) (d : FunDef) (types : List TypeFacts) (homes : List Home) (a b c e : Emitter)
        (l i q : ℕ)
        → Scene p d types homes a → Labelled a b l → Lowered p d types homes b c i → Pushed c e (instr.Label l)
        → i + 1 ≤ q → Lowered p d types homes a e q }
{}
