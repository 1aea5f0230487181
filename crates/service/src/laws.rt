//! Theorems about the definitions.
ghost use Rattle.std.specs.Prelude.{◌≡◌, ℕ, ◌∷◌, [], List, ◌++◌, Bool, true};
ghost use Rattle.std.specs.Prelude.{map, flat_map, Ok};
ghost use Rattle.std.specs.List.{AllByRecursion, AllZip};
ghost use Rattle.road_files.specs.Asked.{Asked};
ghost use Rattle.service.specs.Files.{IsFileOf};
ghost use Rattle.text_lines.specs.Lines.{lines};
ghost use Rattle.road_files.specs.ServiceText.{Request, ServiceState, LinesMay, requests, requests_of, state_after_lines};
ghost use Rattle.service.specs.Replies.{IsNotOutOfMemory};
ghost use Rattle.service.specs.RequestTexts.{IsTextIn};

/// Bytes make the same requests whole whatever comes after them: the requests of a prefix are a
/// prefix of the requests.
#[tactic(auto, using(crate::proofs::RequestLaws::prefix_first))]
pub fn requests_stay()
    ensures { (cut : Bool) (n : ℕ) (bytes more : List ℕ) → (later : List Request) ×
        (requests cut n (bytes ++ more) ≡ requests true n bytes ++ later) }
{}

/// Each request is what some consecutive lines give as a question text of their own.
#[tactic(auto, using(crate::proofs::TextLaws::requests_are_texts))]
pub fn requests_are_texts()
    ensures { (cut : Bool) (n : ℕ) (bytes : List ℕ) → AllByRecursion
        (IsTextIn n 1 (lines cut bytes)) (requests cut n bytes) }
{}

/// Question files one after the other, each ending at a line's end, are one request each, which
/// asks what the file asks.
#[tactic(auto, using(crate::proofs::FileLaws::row_of_files))]
pub fn files_are_requests()
    ensures { (cut : Bool) (n : ℕ) (files : List (List ℕ)) (asks : List Asked) → AllZip (IsFileOf n)
        files asks → requests cut n (flat_map (λ file. file) files) ≡ map (λ asked. Ok asked) asks }
{}

/// If memory never runs out, what lines may do is what the definition says.
#[tactic(auto, using(crate::proofs::RequestLaws::lines_do))]
pub fn lines_do_what_is_said()
    ensures { (n at : ℕ) (state next : ServiceState) (ls : List (List ℕ)) (rs : List Request) →
        LinesMay n at state ls rs next → AllByRecursion IsNotOutOfMemory rs →
        (rs ≡ requests_of true n at state ls) × (next ≡ state_after_lines n state ls) }
{}
