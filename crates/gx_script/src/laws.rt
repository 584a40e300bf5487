//! Laws of the grammar of scripts.
ghost use Rattle.std.specs.Prelude.{◌≡◌, ◌≢◌, ◌+◌, ◌<◌, ◌^◌, ℕ, ℤ, List, [], ◌∷◌, ◌++◌};
ghost use Rattle.std.specs.Prelude.{true, length, map, codes, decimal, Some, None, FitsSigned};
ghost use Rattle.std.specs.List.{All};
ghost use Rattle.std.specs.Int.{w64};
ghost use Rattle.std.specs.Fmt.{signed_decimal};
ghost use Rattle.gx_geom.specs.Rectangles.{Rectangle, IsBox};
ghost use Rattle.gx_geom.specs.Solids.{Solid, IsSolid};
ghost use Rattle.gx_machine.specs.declared.call.Call.TheVariants as call;
ghost use Rattle.gx_machine.specs.declared.query.Query.TheVariants as query;
ghost use Rattle.gx_machine.specs.declared.entry.Entry.{Entry};
ghost use Rattle.gx_script.specs.declared.line.Line.TheVariants as line;
ghost use Rattle.gx_script.specs.Corners.{Grammar, IsWritten, IsReversed, MakesNoKey, rectangle_grammar, solid_grammar};
ghost use Rattle.gx_script.specs.Lines.{lines, without_cr};
ghost use Rattle.gx_script.specs.Words.{words, is_separator, IsWord};
ghost use Rattle.gx_script.specs.Numbers.{number_of, corner_of};
ghost use Rattle.gx_script.specs.Requests.{line_of, words_line, key_words};
ghost use Rattle.gx_script.specs.Scripts.{IsUnended};
ghost use Rattle.gx_machine.specs.declared.reply.Reply.{Reply};
ghost use Rattle.gx_script.specs.Replies.{reply_text, reply_lines, bad_line};
ghost use Rattle.gx_script.specs.Table.{corner_words};

/// A line ends at its line feed, and the last one at the end if it has a byte.
pub fn lines_end_at_line_feeds()
    ensures none { lines [] ≡ [] }
    ensures ended { (bytes more : List ℕ) → IsUnended bytes → lines (bytes ++ (10 ∷ more)) ≡ bytes ∷ lines more }
    ensures last { (bytes : List ℕ) → IsUnended bytes → 0 < length bytes → lines bytes ≡ bytes ∷ [] }
{}

/// One carriage return at the end of a line goes, and no other byte.
pub fn one_carriage_return_goes()
    ensures none { without_cr [] ≡ [] }
    ensures goes { (front : List ℕ) → without_cr (front ++ (13 ∷ [])) ≡ front }
    ensures stays { (front : List ℕ) (b : ℕ) → b ≢ 13 → without_cr (front ++ (b ∷ [])) ≡ front ++ (b ∷ []) }
{}

/// Separators, of which there may be several in a row, are around words.
pub fn words_stand_between_separators()
    ensures none { words [] ≡ [] }
    ensures skipped { (b : ℕ) (more : List ℕ) → is_separator b ≡ true → words (b ∷ more) ≡ words more }
    ensures ended { (w more : List ℕ) (b : ℕ) → IsWord w → is_separator b ≡ true
        → words (w ++ (b ∷ more)) ≡ w ∷ words more }
    ensures last { (w : List ℕ) → IsWord w → words w ≡ w ∷ [] }
{}

/// A line of more bytes than it may have is bad, whatever they are.
pub fn long_lines_are_bad<B>()
    ensures { (k : Grammar B) (bytes : List ℕ) → 1025 < length bytes → line_of k bytes ≡ line.Bad }
{}

/// A number is read as it is printed.
pub fn printed_numbers_are_read()
    ensures number { (n : ℕ) → n < 2 ^ 64 → number_of (decimal n) ≡ Some n }
    ensures corner { (z : ℤ) → FitsSigned w64 z → corner_of (signed_decimal z) ≡ Some z }
{}

/// A box is written in as many corners as its kind has, and these make the box again.
pub fn boxes_are_written_by_corners()
    ensures plane { (b : Rectangle) → IsBox b → IsWritten rectangle_grammar b }
    ensures space { (b : Solid) → IsSolid b → IsWritten solid_grammar b }
{}

/// Each line of the table asks for its call.
pub fn each_command_asks_its_call<B>()
    ensures blank { (k : Grammar B) → words_line k [] ≡ line.Blank }
    ensures begin { (k : Grammar B) (s : ℕ) → s < 2 ^ 64
        → words_line k (decimal s ∷ (codes "BEGIN" ∷ [])) ≡ line.Asks s call.Begin }
    ensures insert { (k : Grammar B) (s : ℕ) (e : Entry B) → s < 2 ^ 64 → e.row < 2 ^ 64 → IsWritten k e.key
        → words_line k (decimal s ∷ (codes "INSERT" ∷ (decimal e.row ∷ corner_words k e.key)))
        ≡ line.Asks s (call.Insert e) }
    ensures delete { (k : Grammar B) (s : ℕ) (e : Entry B) → s < 2 ^ 64 → e.row < 2 ^ 64 → IsWritten k e.key
        → words_line k (decimal s ∷ (codes "DELETE" ∷ (decimal e.row ∷ corner_words k e.key)))
        ≡ line.Asks s (call.Delete e) }
    ensures overlap { (k : Grammar B) (s : ℕ) (b : B) → s < 2 ^ 64 → IsWritten k b
        → words_line k (decimal s ∷ (codes "OVERLAP" ∷ corner_words k b))
        ≡ line.Asks s (call.Search (query.Overlap b)) }
    ensures within { (k : Grammar B) (s : ℕ) (b : B) → s < 2 ^ 64 → IsWritten k b
        → words_line k (decimal s ∷ (codes "WITHIN" ∷ corner_words k b)) ≡ line.Asks s (call.Search (query.Within b)) }
    ensures equal { (k : Grammar B) (s : ℕ) (b : B) → s < 2 ^ 64 → IsWritten k b
        → words_line k (decimal s ∷ (codes "EQUAL" ∷ corner_words k b)) ≡ line.Asks s (call.Search (query.Equal b)) }
    ensures covers { (k : Grammar B) (s : ℕ) (b : B) → s < 2 ^ 64 → IsWritten k b
        → words_line k (decimal s ∷ (codes "COVERS" ∷ corner_words k b)) ≡ line.Asks s (call.Search (query.Covers b)) }
    ensures commit { (k : Grammar B) (s : ℕ) → s < 2 ^ 64
        → words_line k (decimal s ∷ (codes "COMMIT" ∷ [])) ≡ line.Asks s call.Commit }
    ensures abort { (k : Grammar B) (s : ℕ) → s < 2 ^ 64
        → words_line k (decimal s ∷ (codes "ABORT" ∷ [])) ≡ line.Asks s call.Abort }
{}

/// Too few numbers or too many, or one that can't be a corner, make no key, and neither do corners that are reversed.
pub fn only_keys_are_asked_for<B>()
    ensures bad { (k : Grammar B) (zs : List ℤ) → All (FitsSigned w64) zs → MakesNoKey k zs
        → key_words k (map signed_decimal zs) ≡ None }
    ensures reversed { (k : Grammar B) (zs : List ℤ) → All (FitsSigned w64) zs → IsReversed k zs
        → key_words k (map signed_decimal zs) ≡ Some None }
{}

/// The text of a reply is whole lines, one and one more for each entry that was found.
pub fn replies_are_whole_lines<B>()
    ensures reply { (k : Grammar B) (s : ℕ) (reply : Reply B) (more : List ℕ) →
        length (lines (reply_text k s reply ++ more)) ≡ reply_lines reply + length (lines more) }
    ensures bad { (number : ℕ) (more : List ℕ) → length (lines (bad_line number ++ more)) ≡ 1 + length (lines more) }
{}
