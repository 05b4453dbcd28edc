//! Laws of readings, which the contracts of calls are made to fit.

ghost use Rattle.std.specs.Prelude.{◌≡◌, ℕ, ◌≤◌, List, [], ◌∷◌, ◌++◌, length, IfOk, IfErr};
ghost use Rattle.ck_base.specs.declared.positions.Pos.{Pos};
ghost use Rattle.ck_base.specs.Tokens.{Lexeme};
ghost use Rattle.ck_base.specs.Lexes.{NextToken, NextRefusal, NextEnd, Reads, Lexes, Refuses};

use crate::tokens::Tokens;
use ck_base::Pos;

/// A file has one reading at most: one list of tokens, or one refusal.
pub fn one_reading()
    ensures tokens { (file : List ℕ) (tokens others : List Lexeme) →
        Lexes file tokens → Lexes file others → tokens ≡ others }
    ensures refusal { (file : List ℕ) (code other : ℕ) (pos place : Pos) →
        Refuses file code pos → Refuses file other place → (code ≡ other) × (pos ≡ place) }
    ensures apart { (file : List ℕ) (tokens : List Lexeme) (code : ℕ) (pos : Pos) →
        Lexes file tokens → Refuses file code pos → ⊥ }
{}

/// Behind a place of a file one thing comes next at most: one token, one refusal, or the end.
pub fn one_step()
    ensures token { (file : List ℕ) (i : ℕ) (token other : Lexeme) →
        NextToken file i token → NextToken file i other → token ≡ other }
    ensures refusal { (file : List ℕ) (i code other : ℕ) (pos place : Pos) →
        NextRefusal file i code pos → NextRefusal file i other place → (code ≡ other) × (pos ≡ place) }
    ensures token_or_end { (file : List ℕ) (i : ℕ) (token : Lexeme) →
        NextToken file i token → NextEnd file i → ⊥ }
    ensures token_or_refusal { (file : List ℕ) (i code : ℕ) (token : Lexeme) (pos : Pos) →
        NextToken file i token → NextRefusal file i code pos → ⊥ }
    ensures refusal_or_end { (file : List ℕ) (i code : ℕ) (pos : Pos) →
        NextRefusal file i code pos → NextEnd file i → ⊥ }
{}

/// What calls of `Tokens::next` give, one after another from the beginning of a file, is its reading: tokens add to
/// what was read, the end makes it whole, and a refusal is the file's.
pub fn calls_read()
    ensures begin { (file : List ℕ) → Reads file 0 [] 0 }
    ensures token { (file : List ℕ) (tokens : List Lexeme) (k : ℕ) (token : Lexeme) →
        Reads file 0 tokens k → NextToken file k token →
        Reads file 0 (tokens ++ token ∷ []) token.span.end }
    ensures end { (file : List ℕ) (tokens : List Lexeme) (k : ℕ) →
        Reads file 0 tokens k → NextEnd file k → Lexes file tokens }
    ensures refusal { (file : List ℕ) (tokens : List Lexeme) (k code : ℕ) (pos : Pos) →
        Reads file 0 tokens k → NextRefusal file k code pos → Refuses file code pos }
{}

/// Calls `Tokens::next` until the end or a refusal comes: how many tokens the file has, or the code and the position
/// with which it is refused. So each file has a reading, and these calls give it.
pub fn token_count(file: &[u8]) -> Result<usize, (u16, Pos)>
    requires { length file.now ≤ 4_194_304 }
    ensures lexed { IfOk result (λ n. (tokens : List Lexeme) × Lexes file.now tokens × (length tokens ≡ n)) }
    ensures refused { IfErr result (λ e. Refuses file.now e.0 e.1) }
{
    let mut tokens = Tokens::new(file);
    let mut count = 0;
    while let Some(next) = tokens.next() {
        match next {
            Ok(_) => count += 1,
            Err(refusal) => return Err(refusal),
        }
    }
    Ok(count)
}
