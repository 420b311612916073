//! `i1` to `i127`: `Int` over the smallest primitive that has room. At 8, 16, 32 and 64 bits there are
//! primitives of these names. tools/short_names.py writes this file.

use crate::signed::Int;

pub type i1 = Int<i8, 1>;

pub type i2 = Int<i8, 2>;

pub type i3 = Int<i8, 3>;

pub type i4 = Int<i8, 4>;

pub type i5 = Int<i8, 5>;

pub type i6 = Int<i8, 6>;

pub type i7 = Int<i8, 7>;

pub type i9 = Int<i16, 9>;

pub type i10 = Int<i16, 10>;

pub type i11 = Int<i16, 11>;

pub type i12 = Int<i16, 12>;

pub type i13 = Int<i16, 13>;

pub type i14 = Int<i16, 14>;

pub type i15 = Int<i16, 15>;

pub type i17 = Int<i32, 17>;

pub type i18 = Int<i32, 18>;

pub type i19 = Int<i32, 19>;

pub type i20 = Int<i32, 20>;

pub type i21 = Int<i32, 21>;

pub type i22 = Int<i32, 22>;

pub type i23 = Int<i32, 23>;

pub type i24 = Int<i32, 24>;

pub type i25 = Int<i32, 25>;

pub type i26 = Int<i32, 26>;

pub type i27 = Int<i32, 27>;

pub type i28 = Int<i32, 28>;

pub type i29 = Int<i32, 29>;

pub type i30 = Int<i32, 30>;

pub type i31 = Int<i32, 31>;

pub type i33 = Int<i64, 33>;

pub type i34 = Int<i64, 34>;

pub type i35 = Int<i64, 35>;

pub type i36 = Int<i64, 36>;

pub type i37 = Int<i64, 37>;

pub type i38 = Int<i64, 38>;

pub type i39 = Int<i64, 39>;

pub type i40 = Int<i64, 40>;

pub type i41 = Int<i64, 41>;

pub type i42 = Int<i64, 42>;

pub type i43 = Int<i64, 43>;

pub type i44 = Int<i64, 44>;

pub type i45 = Int<i64, 45>;

pub type i46 = Int<i64, 46>;

pub type i47 = Int<i64, 47>;

pub type i48 = Int<i64, 48>;

pub type i49 = Int<i64, 49>;

pub type i50 = Int<i64, 50>;

pub type i51 = Int<i64, 51>;

pub type i52 = Int<i64, 52>;

pub type i53 = Int<i64, 53>;

pub type i54 = Int<i64, 54>;

pub type i55 = Int<i64, 55>;

pub type i56 = Int<i64, 56>;

pub type i57 = Int<i64, 57>;

pub type i58 = Int<i64, 58>;

pub type i59 = Int<i64, 59>;

pub type i60 = Int<i64, 60>;

pub type i61 = Int<i64, 61>;

pub type i62 = Int<i64, 62>;

pub type i63 = Int<i64, 63>;

pub type i65 = Int<i128, 65>;

pub type i66 = Int<i128, 66>;

pub type i67 = Int<i128, 67>;

pub type i68 = Int<i128, 68>;

pub type i69 = Int<i128, 69>;

pub type i70 = Int<i128, 70>;

pub type i71 = Int<i128, 71>;

pub type i72 = Int<i128, 72>;

pub type i73 = Int<i128, 73>;

pub type i74 = Int<i128, 74>;

pub type i75 = Int<i128, 75>;

pub type i76 = Int<i128, 76>;

pub type i77 = Int<i128, 77>;

pub type i78 = Int<i128, 78>;

pub type i79 = Int<i128, 79>;

pub type i80 = Int<i128, 80>;

pub type i81 = Int<i128, 81>;

pub type i82 = Int<i128, 82>;

pub type i83 = Int<i128, 83>;

pub type i84 = Int<i128, 84>;

pub type i85 = Int<i128, 85>;

pub type i86 = Int<i128, 86>;

pub type i87 = Int<i128, 87>;

pub type i88 = Int<i128, 88>;

pub type i89 = Int<i128, 89>;

pub type i90 = Int<i128, 90>;

pub type i91 = Int<i128, 91>;

pub type i92 = Int<i128, 92>;

pub type i93 = Int<i128, 93>;

pub type i94 = Int<i128, 94>;

pub type i95 = Int<i128, 95>;

pub type i96 = Int<i128, 96>;

pub type i97 = Int<i128, 97>;

pub type i98 = Int<i128, 98>;

pub type i99 = Int<i128, 99>;

pub type i100 = Int<i128, 100>;

pub type i101 = Int<i128, 101>;

pub type i102 = Int<i128, 102>;

pub type i103 = Int<i128, 103>;

pub type i104 = Int<i128, 104>;

pub type i105 = Int<i128, 105>;

pub type i106 = Int<i128, 106>;

pub type i107 = Int<i128, 107>;

pub type i108 = Int<i128, 108>;

pub type i109 = Int<i128, 109>;

pub type i110 = Int<i128, 110>;

pub type i111 = Int<i128, 111>;

pub type i112 = Int<i128, 112>;

pub type i113 = Int<i128, 113>;

pub type i114 = Int<i128, 114>;

pub type i115 = Int<i128, 115>;

pub type i116 = Int<i128, 116>;

pub type i117 = Int<i128, 117>;

pub type i118 = Int<i128, 118>;

pub type i119 = Int<i128, 119>;

pub type i120 = Int<i128, 120>;

pub type i121 = Int<i128, 121>;

pub type i122 = Int<i128, 122>;

pub type i123 = Int<i128, 123>;

pub type i124 = Int<i128, 124>;

pub type i125 = Int<i128, 125>;

pub type i126 = Int<i128, 126>;

pub type i127 = Int<i128, 127>;
