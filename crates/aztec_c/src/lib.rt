// The interface for C and Rust (include/aztec.h), thin: each function is a library's entry under its C name, with the same contract.
#![tactic(auto)]

ghost use Rattle.std.specs.Prelude.{◌≡◌};
ghost use Rattle.reed_solomon.specs.Correct.{correct_of};
ghost use Rattle.encoder.specs.Encode.{encode_of};
ghost use Rattle.decoder.specs.Decode.{decode_of};
ghost use Rattle.aztec_c.specs.Fields.{encoded_fields, decoded_fields};

use decoder::Decoded;
use encoder::Encoded;

#[unsafe(no_mangle)]
pub extern "C" fn aztec_correct(
    word_size: u32,
    check_words: usize,
    received: &[u16],
    marks: &[u8],
    corrected: &mut [u16],
) -> u32
    ensures value { result ≡ (correct_of word_size check_words received.now
        marks.now corrected.old).number }
    ensures corrected_after { corrected.new ≡ (correct_of word_size check_words received.now
        marks.now corrected.old).words }
{
    reed_solomon::correct(word_size, check_words, received, marks, corrected)
}

// The fields of encoder::Encoded, laid out as C lays them out.
#[repr(C)]
#[derive(Clone, Copy)]
pub struct AztecEncoded {
    pub number: u32,
    pub shape: u32,
    pub side: u32,
    pub data_words: u32,
    pub check_words: u32,
}

impl From<Encoded> for AztecEncoded {
    ghost from_gives = { λ answer fields. fields ≡ encoded_fields answer };

    #[tactic(auto, unfolding(crate::specs::Fields::encoded_fields))]
    fn from(answer: Encoded) -> AztecEncoded {
        AztecEncoded {
            number: answer.number,
            shape: answer.shape,
            side: answer.side,
            data_words: answer.data_words,
            check_words: answer.check_words,
        }
    }
}

#[unsafe(no_mangle)]
pub extern "C" fn aztec_encode(message: &[u8], percent: u32, grid: &mut [u8]) -> AztecEncoded
    ensures value { result ≡ encoded_fields (encode_of message.now percent grid.old).answer }
    ensures grid_after { grid.new ≡ (encode_of message.now percent grid.old).grid }
{
    AztecEncoded::from(encoder::encode(message, percent, grid))
}

// The fields of decoder::Decoded, laid out as C lays them out.
#[repr(C)]
#[derive(Clone, Copy)]
pub struct AztecDecoded {
    pub number: u32,
    pub length: u32,
    pub shape: u32,
    pub position: u32,
    pub unread: u32,
    pub wrong: u32,
}

impl From<Decoded> for AztecDecoded {
    ghost from_gives = { λ answer fields. fields ≡ decoded_fields answer };

    #[tactic(auto, unfolding(crate::specs::Fields::decoded_fields))]
    fn from(answer: Decoded) -> AztecDecoded {
        AztecDecoded {
            number: answer.number,
            length: answer.length,
            shape: answer.shape,
            position: answer.position,
            unread: answer.unread,
            wrong: answer.wrong,
        }
    }
}

#[unsafe(no_mangle)]
pub extern "C" fn aztec_decode(grid: &[u8], side: u32, message: &mut [u8]) -> AztecDecoded
    ensures value { result ≡ decoded_fields (decode_of grid.now side message.old).answer }
    ensures message_after { message.new ≡ (decode_of grid.now side message.old).message }
{
    AztecDecoded::from(decoder::decode(grid, side, message))
}
