//! Worked examples of the definitions.
ghost use Rattle.std.specs.Prelude.{◌≡◌, ◌∷◌, [], ◌++◌, codes, true, false, Ok, Err};
ghost use Rattle.zone_lexing.specs.Word.Written.{Plain, Quoted, Unclosed};
ghost use Rattle.record_text.specs.Data.{data_of_words};
ghost use Rattle.record_text.specs.Generic.{generic_mark};
ghost use Rattle.record_text.specs.Mnemonics.{type_of, type_word, class_of};
ghost use Rattle.record_text.specs.Text.{words_of, text_of_words};

use crate::cause::Cause;

/// Types and classes by their numbers (RFC 3597, 5).
#[tactic(auto, unfolding(crate::specs::Mnemonics::type_named, crate::specs::Mnemonics::type_numbered, crate::specs::Mnemonics::class_named, crate::specs::Mnemonics::type_word, crate::specs::Number::decimal_of))]
pub fn examples_of_numbers()
    ensures any_case { type_of (Plain (codes "tYpe65280")) ≡ Ok 65280 }
    ensures address { type_of (Plain (codes "TYPE1")) ≡ Ok 1 }
    ensures greatest { type_of (Plain (codes "TYPE65535")) ≡ Ok 65535 }
    ensures too_great { type_of (Plain (codes "TYPE65536")) ≡ Err Cause.UnknownType }
    ensures metatype { type_of (Plain (codes "TYPE255")) ≡ Err Cause.UnknownType }
    ensures type_0 { type_of (Plain (codes "TYPE0")) ≡ Err Cause.UnknownType }
    ensures zero_in_front { type_of (Plain (codes "TYPE01")) ≡ Err Cause.UnknownType }
    ensures no_number { type_of (Plain (codes "TYPE")) ≡ Err Cause.UnknownType }
    ensures another_word { type_of (Plain (codes "CAA")) ≡ Err Cause.UnknownType }
    ensures quoted { type_of (Quoted (codes "TYPE65280")) ≡ Err Cause.UnknownType }
    ensures internet { class_of (Plain (codes "class1")) ≡ Ok true }
    ensures another_class { class_of (Plain (codes "CLASS3")) ≡ Err Cause.BadClass }
    ensures class_with_a_zero { class_of (Plain (codes "CLASS01")) ≡ Err Cause.BadClass }
    ensures no_class { class_of (Plain (codes "CLASS")) ≡ Ok false }
    ensures written { type_word 257 ≡ codes "TYPE257" }
{}

/// Data as octets: of a type that nobody here knows, and of one that has a form (RFC 3597, 5).
#[tactic(auto, unfolding(crate::specs::Generic::generic_of, crate::specs::Data::as_own_data, crate::specs::Data::as_data, crate::specs::Data::octets_of_words, crate::specs::Data::form_of, crate::specs::Text::words_of, dns_rdata::specs::Data::data_of, dns_rdata::specs::Layout::layout_of, hex::specs::Hex::decode_pairs, hex::specs::Hex::encode_with))]
pub fn examples_of_any_type()
    ensures read { data_of_words 65280 [] (Plain generic_mark ∷ Plain (codes "3") ∷ Plain (codes "0A") ∷ Plain (codes "0b0c") ∷ []) ≡ Ok (10 ∷ 11 ∷ 12 ∷ []) }
    ensures written { text_of_words (words_of 65280 (10 ∷ 11 ∷ 12 ∷ [])) ≡ 32 ∷ generic_mark ++ codes " 3 0a0b0c" }
    ensures no_octets { text_of_words (words_of 65280 []) ≡ 32 ∷ generic_mark ++ codes " 0" }
    ensures address { data_of_words 1 [] (Plain generic_mark ∷ Plain (codes "4") ∷ Plain (codes "c0000201") ∷ []) ≡ Ok (192 ∷ 0 ∷ 2 ∷ 1 ∷ []) }
    ensures no_address { data_of_words 1 [] (Plain generic_mark ∷ Plain (codes "3") ∷ Plain (codes "c00002") ∷ []) ≡ Err Cause.BadData }
    ensures name { data_of_words 2 [] (Plain generic_mark ∷ Plain (codes "3") ∷ Plain (codes "016100") ∷ []) ≡ Ok (1 ∷ 97 ∷ 0 ∷ []) }
    ensures capital_letter { data_of_words 2 [] (Plain generic_mark ∷ Plain (codes "3") ∷ Plain (codes "014100") ∷ []) ≡ Err Cause.BadData }
    ensures pointer { data_of_words 2 [] (Plain generic_mark ∷ Plain (codes "2") ∷ Plain (codes "c00c") ∷ []) ≡ Err Cause.BadData }
    ensures more_octets { data_of_words 65280 [] (Plain generic_mark ∷ Plain (codes "2") ∷ Plain (codes "0a0b0c") ∷ []) ≡ Err Cause.BadData }
    ensures half_an_octet { data_of_words 65280 [] (Plain generic_mark ∷ Plain (codes "1") ∷ Plain (codes "0") ∷ []) ≡ Err Cause.BadData }
    ensures no_number { data_of_words 65280 [] (Plain generic_mark ∷ Plain (codes "x") ∷ []) ≡ Err Cause.Number }
    ensures too_many { data_of_words 65280 [] (Plain generic_mark ∷ Plain (codes "4097") ∷ Plain (codes "x") ∷ []) ≡ Err Cause.Limit }
    ensures not_marked { data_of_words 65280 [] (Plain (codes "0a") ∷ []) ≡ Err Cause.BadData }
    ensures unclosed_before_the_mark { data_of_words 65280 [] (Unclosed ∷ []) ≡ Err Cause.Unclosed }
    ensures unclosed_after_another_word { data_of_words 65280 [] (Plain (codes "0a") ∷ Unclosed ∷ []) ≡ Err Cause.BadData }
    ensures marked_in_quotes { data_of_words 65280 [] (Quoted generic_mark ∷ Plain (codes "0") ∷ []) ≡ Err Cause.BadData }
{}
