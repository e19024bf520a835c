ghost use Rattle.std.specs.Prelude.{◌≡◌, ◌⊎◌, ℕ, ◌<◌, Bool, true, false, List, All, Ok, Err, length, take};
ghost use Rattle.hg_base.specs.declared.fault.InputFault.{InputFault};
ghost use Rattle.pgm_reader.specs.Raster.{Raster};
ghost use Rattle.pgm_reader.specs.Pgm.{CutToken, cut, picture};
ghost use Rattle.pgm_reader.specs.Spelling.{Spells};
ghost use Rattle.pgm_reader.specs.FirstFault.{IsFirst, PartsNone, ended_early};
ghost use Rattle.pgm_reader.specs.HeaderTokens.{IsFirstOf};
ghost use Rattle.input_tokens.specs.Tokens.{blanked, tokens_from};

/// What is read as a picture is what spells it: three numbers, a byte of white space and the bytes of its samples.
pub fn pictures_are_spellings()
    ensures only { (bytes : List ℕ) (r : Raster) → All (λ b. b < 256) bytes → picture bytes ≡ Ok r
        → (width : CutToken) × (height : CutToken) × (greatest : CutToken) × (space : ℕ) × Spells bytes r width height greatest space }
    ensures read { (bytes : List ℕ) (r : Raster) (width height greatest : CutToken) (space : ℕ)
        → Spells bytes r width height greatest space → picture bytes ≡ Ok r }
{}

/// Each fault of a picture is the first from the left. Either the bytes end where more is wanted; or it is found below
/// their length, what follows it changes nothing, and each shorter cut that has a fault has this one or ends where more
/// is wanted. And a fault that is found in a cut is the fault of the whole. A cut parts no token of the header: a
/// token that is cut is another token.
pub fn picture_faults_are_the_first()
    ensures found { (bytes : List ℕ) (f : InputFault) → picture bytes ≡ Err f → (f ≡ ended_early (length bytes)) ⊎ IsFirst bytes f }
    ensures kept { (bytes : List ℕ) (place : ℕ) (f : InputFault) → PartsNone place bytes → picture (take place bytes) ≡ Err f → f.at < place → picture bytes ≡ Err f }
{}

/// The tokens of a header are those that an edge list has: a token that is cut is the first of the bytes from there on.
/// The greatest value's, which a `#` doesn't end, begins where that one does.
pub fn header_tokens_are_tokens()
    ensures { (hash_ends : Bool) (place : ℕ) (bytes : List ℕ) → IsFirstOf hash_ends (tokens_from true place (blanked false bytes)) (cut hash_ends false place bytes) }
{}
