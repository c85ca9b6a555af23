//! Laws above the definitions of specs/. The functions do nothing: what they ensure is the law.
ghost use Rattle.std.specs.Prelude.{◌≡◌, ℕ, ◌++◌, List};
ghost use Rattle.beep_mime.specs.Split.{mime_header, body_of};

/// What stands after the header that is written is the body.
pub fn the_body_follows_the_header()
    ensures { (body : List ℕ) → body_of (mime_header ++ body) ≡ body }
{}
