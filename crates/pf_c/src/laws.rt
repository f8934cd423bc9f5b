//! Laws of the codes. These functions compute nothing: their clauses are the statements.

ghost use Rattle.std.specs.Prelude.{◌≡◌, ◌≢◌, ◌↔◌, ◌<◌, IsOk, Result, length};
ghost use Rattle.pf_context.specs.declared.error.ContextError.{ContextError};
ghost use Rattle.pf_c.specs.Codes.{code_of, error_code};
ghost use Rattle.pf_c.specs.Kinds.{error_kind};
ghost use Rattle.pf_c.specs.Names.{code_name, code_text};
ghost use Rattle.pf_c.specs.declared.codes.TheConstants.{PF_BAD_KEY, PF_BAD_NUMBER, PF_BAD_PLAYER, PF_BAD_RING, PF_CHECK, PF_CLOSED, PF_FRAME, PF_FULL, PF_OK, PF_OUT_OF_MEMORY, PF_REFUSED, PF_SCENE, PF_SMALL_BUFFER, PF_STILL_OPEN};
ghost use Rattle.pf_c.specs.declared.scenes.TheConstants.{PF_NOBODY};

/// The codes, and the owner that is nobody, have these numbers.
pub fn codes_have_numbers()
    ensures ok { PF_OK ≡ 0 }
    ensures out_of_memory { PF_OUT_OF_MEMORY ≡ 1 }
    ensures closed { PF_CLOSED ≡ 3 }
    ensures bad_key { PF_BAD_KEY ≡ 4 }
    ensures small_buffer { PF_SMALL_BUFFER ≡ 5 }
    ensures bad_player { PF_BAD_PLAYER ≡ 6 }
    ensures bad_ring { PF_BAD_RING ≡ 7 }
    ensures bad_number { PF_BAD_NUMBER ≡ 8 }
    ensures still_open { PF_STILL_OPEN ≡ 9 }
    ensures full { PF_FULL ≡ 10 }
    ensures scene { PF_SCENE ≡ 16 }
    ensures refused { PF_REFUSED ≡ 32 }
    ensures frame { PF_FRAME ≡ 48 }
    ensures check { PF_CHECK ≡ 64 }
    ensures nobody { PF_NOBODY ≡ 255 }
{}

/// A call of a context that is open is `PF_OK` exactly where it succeeds, and never says that the
/// context is closed.
pub fn success_has_one_code<T>()
    ensures ok { (answer : Result T ContextError) → (code_of answer ≡ PF_OK) ↔ IsOk answer }
    ensures open { (answer : Result T ContextError) → code_of answer ≢ PF_CLOSED }
{}

/// Errors of one code are alike, but for the numbers that they name.
pub fn errors_of_one_code_are_alike()
    ensures { (a b : ContextError) → error_code a ≡ error_code b → error_kind a ≡ error_kind b }
{}

/// Each error has a code with a name and a text.
pub fn errors_have_names()
    ensures { (error : ContextError) → let code = error_code error in
        (0 < length (code_name code)) × (0 < length (code_text code)) }
{}
