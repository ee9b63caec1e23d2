// The masks of the clubs' leaves, those of 21 to 33 slots: which slots are taken by 0, 1, .., s entries in s slots, as binary numbers.
ghost use Rattle.std.specs.Prelude.{◌≡◌};
ghost use Rattle.store_masks.specs.Mask.{masks};

// The masks of leaves of 21 slots.
const MASKS_21: [u64; 22] = [
    0, 1024, 32800, 132104, 270468, 279620, 561442, 599186, 674378, 693546, 699050, 1398101,
    1403605, 1422773, 1497965, 1535709, 1817531, 1826683, 1965047, 2064351, 2096127, 2097151,
];

// The masks of leaves of 24 slots.
const MASKS_24: [u64; 25] = [
    0, 2048, 131104, 526344, 1065220, 2164868, 2236962, 4491554, 4793490, 4868682, 5416234,
    5589674, 5592405, 11185493, 11229877, 11382189, 11983725, 12283613, 12303291, 14610299,
    14646775, 15724527, 16515007, 16773119, 16777215,
];

// The masks of leaves of 27 slots.
const MASKS_27: [u64; 28] = [
    0, 8192, 1048640, 4202512, 8455176, 17047812, 17860676, 35791394, 35948834, 38347922, 38949458,
    43297098, 44651690, 44739242, 89478485, 89566037, 90920629, 95268269, 95869805, 98268893,
    98426333, 116357051, 117169915, 125762551, 130015215, 133169087, 134209535, 134217727,
];

// The masks of leaves of 30 slots.
const MASKS_30: [u64; 31] = [
    0, 16384, 4194432, 16793616, 67373064, 68174084, 138547332, 143148100, 286335522, 287590674,
    306783378, 311579218, 346368330, 355095850, 357903018, 357913941, 715838805, 718629589,
    727373493, 762146221, 766958445, 769357533, 787406301, 930577339, 935194491, 937393655,
    1006368759, 1040154591, 1069547391, 1073709055, 1073741823,
];

// The masks of leaves of 33 slots.
const MASKS_33: [u64; 34] = [
    0, 65536, 16777472, 134283296, 269488144, 545325576, 1091051780, 1109461124, 1145324612,
    2291208738, 2435074322, 2454267026, 2492633682, 2770938186, 2840761642, 2861912746, 2863311530,
    5726623061, 5728021845, 5749172949, 5818996405, 6097300909, 6135667565, 6154860269, 6298725853,
    7444609979, 7480473467, 7498882811, 8044609015, 8320446447, 8455651295, 8573157119, 8589869055,
    8589934591,
];

// The same as a value, which a loop reads without building it anew.
pub fn masks_of_21() -> [u64; 22]
    ensures { result ≡ masks 21 }
{
    MASKS_21
}

// The same as a value, which a loop reads without building it anew.
pub fn masks_of_24() -> [u64; 25]
    ensures { result ≡ masks 24 }
{
    MASKS_24
}

// The same as a value, which a loop reads without building it anew.
pub fn masks_of_27() -> [u64; 28]
    ensures { result ≡ masks 27 }
{
    MASKS_27
}

// The same as a value, which a loop reads without building it anew.
pub fn masks_of_30() -> [u64; 31]
    ensures { result ≡ masks 30 }
{
    MASKS_30
}

// The same as a value, which a loop reads without building it anew.
pub fn masks_of_33() -> [u64; 34]
    ensures { result ≡ masks 33 }
{
    MASKS_33
}
