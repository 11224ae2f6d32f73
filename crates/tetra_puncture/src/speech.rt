// The plans of speech.
ghost use Rattle.std.specs.Prelude.{◌≡◌};

use crate::plan::Plan;
use tetra_mother::Third;

/// The places of a whole slot: a look into a table is faster than divisions by the periods of its two patterns.
static WHOLE: [u16; 330] = [
    1, 2, 4, 7, 8, 10, 13, 14, 16, 19, 20, 22, 25, 26, 28, 31, 32, 34, 37, 38, 40, 43, 44, 46, 49,
    50, 52, 55, 56, 58, 61, 62, 64, 67, 68, 70, 73, 74, 76, 79, 80, 82, 85, 86, 88, 91, 92, 94, 97,
    98, 100, 103, 104, 106, 109, 110, 112, 115, 116, 118, 121, 122, 124, 127, 128, 130, 133, 134,
    136, 139, 140, 142, 145, 146, 148, 151, 152, 154, 157, 158, 160, 163, 164, 166, 169, 170, 172,
    175, 176, 178, 181, 182, 184, 187, 188, 190, 193, 194, 196, 199, 200, 202, 205, 206, 208, 211,
    212, 214, 217, 218, 220, 223, 224, 226, 229, 230, 232, 235, 236, 238, 241, 242, 244, 247, 248,
    250, 253, 254, 256, 259, 260, 262, 265, 266, 268, 271, 272, 274, 277, 278, 280, 283, 284, 286,
    289, 290, 292, 295, 296, 298, 301, 302, 304, 307, 308, 310, 313, 314, 316, 319, 320, 322, 325,
    326, 328, 331, 332, 334, 337, 338, 339, 340, 341, 343, 344, 346, 347, 349, 350, 351, 352, 353,
    355, 356, 358, 359, 361, 362, 363, 364, 365, 367, 368, 370, 371, 373, 374, 375, 376, 377, 379,
    380, 382, 383, 385, 386, 387, 388, 389, 391, 392, 394, 395, 397, 398, 399, 400, 401, 403, 404,
    406, 407, 409, 410, 411, 412, 413, 415, 416, 418, 419, 421, 422, 423, 424, 425, 427, 428, 430,
    431, 433, 434, 435, 436, 437, 439, 440, 442, 443, 445, 446, 447, 448, 449, 451, 452, 454, 455,
    457, 458, 459, 460, 461, 463, 464, 466, 467, 469, 470, 471, 472, 473, 475, 476, 478, 479, 481,
    482, 483, 484, 485, 487, 488, 490, 491, 493, 494, 495, 496, 497, 499, 500, 502, 503, 505, 506,
    507, 508, 509, 511, 512, 514, 515, 517, 518, 519, 520, 521, 523, 524, 526, 527, 529, 530, 531,
    532, 533, 535, 536, 538, 539, 541, 542, 543, 544, 545, 547, 548, 550, 551,
];

/// Those of half a slot.
static HALF: [u16; 165] = [
    1, 2, 4, 7, 8, 10, 13, 14, 16, 19, 20, 22, 25, 26, 28, 31, 32, 34, 37, 38, 40, 43, 44, 46, 49,
    50, 52, 55, 56, 58, 61, 62, 64, 67, 68, 70, 73, 74, 76, 79, 80, 82, 85, 86, 88, 91, 92, 94, 97,
    98, 100, 103, 104, 106, 109, 110, 112, 115, 116, 118, 121, 122, 124, 127, 128, 130, 133, 134,
    136, 139, 140, 142, 145, 146, 148, 151, 152, 154, 157, 158, 160, 163, 164, 166, 169, 170, 171,
    172, 173, 175, 176, 178, 179, 181, 182, 184, 185, 187, 188, 190, 191, 193, 194, 195, 196, 197,
    199, 200, 202, 203, 205, 206, 208, 209, 211, 212, 214, 215, 217, 218, 219, 220, 221, 223, 224,
    226, 227, 229, 230, 232, 233, 235, 236, 238, 239, 241, 242, 243, 244, 245, 247, 248, 250, 251,
    253, 254, 256, 257, 259, 260, 262, 263, 265, 266, 267, 268, 269, 271, 272, 274, 275, 277, 278,
    280, 281,
];

/// Speech in a whole slot (this project's own numbers, after EN 300 395-2 clause 5): of the 112 steps of class 1 three
/// of each six mother bits are sent, of the others nine of each twelve.
pub struct SpeechWhole;

impl Plan for SpeechWhole {
    ghost use Rattle.tetra_puncture.specs.Places.{speech_whole};
    ghost use Rattle.tetra_puncture.specs.lemmas.SpeechWhole.{speech_whole_sizes, speech_whole_rise, speech_whole_lie, speech_whole_differ};
    ghost use Rattle.std.specs.Prelude.{refl};

    type Code = Third;

    ghost STEPS = { 184 };

    ghost SENT = { 330 };

    ghost plan = { speech_whole };

    ghost IsSound = { Unit {0} };

    ghost same_steps = { refl };

    ghost same_sent = { refl };

    ghost same_outs = { refl };

    ghost same_taps = { refl };

    ghost sizes = { λ sound. speech_whole_sizes };

    ghost rise = { λ sound. speech_whole_rise };

    ghost lie = { λ sound. speech_whole_lie };

    ghost differ = { λ sound. speech_whole_differ };

    const STEPS: usize = 184;

    const SENT: usize = 330;

    fn place(j: usize) -> usize {
        usize::from(WHOLE[j - 1])
    }
}

/// Speech in half a slot (this project's own numbers, after EN 300 395-2 clause 5): of the 56 steps of class 1 three of
/// each six mother bits are sent, of the others seventeen of each twenty-four.
pub struct SpeechHalf;

impl Plan for SpeechHalf {
    ghost use Rattle.tetra_puncture.specs.Places.{speech_half};
    ghost use Rattle.tetra_puncture.specs.lemmas.SpeechHalf.{speech_half_sizes, speech_half_rise, speech_half_lie, speech_half_differ};
    ghost use Rattle.std.specs.Prelude.{refl};

    type Code = Third;

    ghost STEPS = { 94 };

    ghost SENT = { 165 };

    ghost plan = { speech_half };

    ghost IsSound = { Unit {0} };

    ghost same_steps = { refl };

    ghost same_sent = { refl };

    ghost same_outs = { refl };

    ghost same_taps = { refl };

    ghost sizes = { λ sound. speech_half_sizes };

    ghost rise = { λ sound. speech_half_rise };

    ghost lie = { λ sound. speech_half_lie };

    ghost differ = { λ sound. speech_half_differ };

    const STEPS: usize = 94;

    const SENT: usize = 165;

    fn place(j: usize) -> usize {
        usize::from(HALF[j - 1])
    }
}
