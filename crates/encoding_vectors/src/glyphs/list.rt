//! The names of glyphs, and the numbers of their characters.
//!
//! From glyphlist.txt, the Adobe Glyph List, version 2.0. Copyright 2002, 2010, 2015 Adobe Systems
//! Incorporated. Licensed under the Apache License, Version 2.0, which is in LICENSE-APACHE. Changed: the rows
//! are in another order, the 81 names of several characters are left out, and fourteen rows are of TeX.

/// The offset of the first row with a name of at least so many bytes, for up to 40 bytes.
pub(crate) static STARTS: [usize; 41] = [
    0, 0, 364, 668, 1064, 1574, 2817, 5649, 8444, 11_916, 21_006, 30_526, 36_510, 40_632, 44_014,
    48_454, 52_066, 55_586, 58_438, 61_078, 64_228, 66_334, 67_846, 68_882, 70_071, 71_031, 71_992,
    72_472, 72_835, 73_107, 73_247, 73_571, 73_867, 73_905, 73_983, 74_023, 74_105, 74_105, 74_105,
    74_105, 74_150,
];

/// The rows, sorted by the length of the name and by the name: the name, a semicolon, the number in four
/// hexadecimal digits, and a space.
pub(crate) static ROWS: &[u8] = b"\
    A;0041 B;0042 C;0043 D;0044 E;0045 F;0046 G;0047 H;0048 I;0049 J;004A K;004B L;004C M;004D N;004E O;004F \
    P;0050 Q;0051 R;0052 S;0053 T;0054 U;0055 V;0056 W;0057 X;0058 Y;0059 Z;005A a;0061 b;0062 c;0063 d;0064 \
    e;0065 f;0066 g;0067 h;0068 i;0069 j;006A k;006B l;006C m;006D n;006E o;006F p;0070 q;0071 r;0072 s;0073 \
    t;0074 u;0075 v;0076 w;0077 x;0078 y;0079 z;007A AE;00C6 DZ;01F1 Dz;01F2 IJ;0132 LJ;01C7 LL;F6BF Lj;01C8 \
    Mu;039C NJ;01CA Ng;014A Nj;01CB Nu;039D OE;0152 Oi;01A2 Pi;03A0 Xi;039E ae;00E6 at;0040 dz;01F3 ff;FB00 \
    fi;FB01 fl;FB02 he;05D4 hv;0195 ij;0133 lj;01C9 ll;F6C0 mu;00B5 ng;014B nj;01CC nu;03BD oe;0153 oi;01A3 \
    pe;05E4 pi;03C0 ts;02A6 xi;03BE yr;01A6 Chi;03A7 Eng;014A Esh;01A9 Eta;0397 Eth;00D0 Ezh;01B7 Ohm;2126 \
    Phi;03A6 Psi;03A8 Rho;03A1 Tau;03A4 arc;2312 bar;007C bet;05D1 chi;03C7 cwm;200C eng;014B esh;0283 \
    eta;03B7 eth;00F0 ezh;0292 ffi;FB03 ffl;FB04 het;05D7 jis;3004 kaf;05DB mem;05DE mu1;00B5 nun;05E0 \
    one;0031 phi;03C6 psi;03C8 qof;05E7 rho;03C1 six;0036 sun;263C tau;03C4 tav;05EA tet;05D8 two;0032 \
    vav;05D5 won;20A9 yen;00A5 yod;05D9 Beta;0392 Cdot;010A Dbar;0110 Edot;0116 Euro;20AC Gdot;0120 \
    Hbar;0126 Idot;0130 Iota;0399 Ldot;013F Tbar;0166 Zdot;017B Zeta;0396 alef;05D0 ayin;05E2 beta;03B2 \
    cdot;010B cent;00A2 club;2663 dbar;0111 dezh;02A4 dong;20AB edot;0117 euro;20AC five;0035 four;0034 \
    gdot;0121 hbar;0127 ilde;02DC iota;03B9 lbar;019A ldot;0140 less;003C lezh;026E lira;20A4 male;2642 \
    mars;2642 nine;0039 phi1;03D5 plus;002B rafe;05BF resh;05E8 ring;02DA shin;05E9 tbar;0167 tesh;02A7 \
    ubar;0289 wynn;01BF zdot;017C zero;0030 zeta;03B6 Acute;F6C9 Alpha;0391 Aring;00C5 Bhook;0181 Caron;F6CA \
    Chook;0187 Delta;0394 Dhook;018A Eopen;0190 Fhook;0191 Gamma;0393 Ghook;0193 Grave;F6CE Kappa;039A \
    Khook;0198 Ohorn;01A0 Omega;03A9 Oopen;0186 Phook;01A4 Schwa;018F Sigma;03A3 Theta;0398 Thook;01AC \
    Thorn;00DE Uhorn;01AF Uring;016E Vhook;01B2 Yhook;01B3 acute;00B4 adeva;0905 aleph;2135 alpha;03B1 \
    angle;2220 apple;F8FF aring;00E5 bhook;0253 blank;2423 block;2588 breve;02D8 caron;02C7 ccurl;0255 \
    chook;0188 clear;2327 colon;003A comma;002C dalet;05D3 danda;0964 delta;03B4 dhook;0257 dtail;0256 \
    earth;2641 edeva;090F eight;0038 eopen;025B equal;003D franc;20A3 gamma;03B3 ghook;0260 gimel;05D2 \
    grave;0060 heart;2665 hhook;0266 hiriq;05B4 holam;05B9 house;2302 ideva;0907 kappa;03BA khook;0199 \
    lamed;05DC lbelt;026C longs;017F mhook;0271 minus;2212 nabla;2207 odeva;0913 ohorn;01A1 omega;03C9 \
    oopen;0254 patah;05B7 phook;01A5 qhook;02A0 ratio;2236 rhook;027D schwa;0259 segol;05B6 seven;0037 \
    shade;2592 sheva;05B0 shook;0282 sigma;03C3 slash;002F slong;017F space;0020 spade;2660 theta;03B8 \
    thook;01AD thorn;00FE three;0033 tilde;02DC tonos;0384 tsadi;05E6 tsere;05B5 udeva;0909 uhorn;01B0 \
    union;222A uring;016F venus;2640 vhook;028B wring;1E98 yhook;01B4 yring;1E99 zayin;05D6 zcurl;0291 \
    Aacute;00C1 Abreve;0102 Acaron;01CD Agrave;00C0 Asmall;F761 Atilde;00C3 Bsmall;F762 Cacute;0106 \
    Ccaron;010C Csmall;F763 Dcaron;010E Dcroat;0110 Dslash;0110 Dsmall;F764 Eacute;00C9 Ebreve;0114 \
    Ecaron;011A Egrave;00C8 Esmall;F765 Etilde;1EBC Fsmall;F766 Gacute;01F4 Gbreve;011E Gcaron;01E6 \
    Gsmall;F767 H18533;25CF H18543;25AA H18551;25AB H22073;25A1 Hsmall;F768 Iacute;00CD Ibreve;012C \
    Icaron;01CF Igrave;00CC Ismall;F769 Itilde;0128 Jsmall;F76A Kacute;1E30 Kcaron;01E8 Ksmall;F76B \
    Lacute;0139 Lambda;039B Lcaron;013D Lslash;0141 Lsmall;F76C Macron;F6D0 Macute;1E3E Msmall;F76D \
    Nacute;0143 Ncaron;0147 Nsmall;F76E Ntilde;00D1 Oacute;00D3 Obreve;014E Ocaron;01D1 Ograve;00D2 \
    Oslash;00D8 Osmall;F76F Otilde;00D5 Pacute;1E54 Psmall;F770 Qsmall;F771 Racute;0154 Rcaron;0158 \
    Rsmall;F772 Sacute;015A Scaron;0160 Ssmall;F773 Tcaron;0164 Tsmall;F774 Uacute;00DA Ubreve;016C \
    Ucaron;01D3 Ugrave;00D9 Usmall;F775 Utilde;0168 Vsmall;F776 Vtilde;1E7C Wacute;1E82 Wgrave;1E80 \
    Wsmall;F777 Xsmall;F778 Yacute;00DD Ygrave;1EF2 Ysmall;F779 Ytilde;1EF8 Zacute;0179 Zcaron;017D \
    Zsmall;F77A aacute;00E1 aadeva;0906 abreve;0103 acaron;01CE agrave;00E0 aideva;0910 aparen;249C \
    atilde;00E3 audeva;0914 badeva;092C bparen;249D bullet;2022 cacute;0107 cadeva;091A careof;2105 \
    ccaron;010D circle;25CB cparen;249E dadeva;0926 dagesh;05BC dagger;2020 dcaron;010F dcroat;0111 \
    degree;00B0 divide;00F7 dollar;0024 dparen;249F dzcurl;02A5 eacute;00E9 ebreve;0115 ecaron;011B \
    egrave;00E8 emdash;2014 endash;2013 eparen;24A0 etilde;1EBD exclam;0021 fadeva;095E female;2640 \
    florin;0192 forall;2200 fparen;24A1 gacute;01F5 gadeva;0917 gbreve;011F gcaron;01E7 gparen;24A2 \
    hadeva;0939 hparen;24A3 hyphen;002D iacute;00ED ibreve;012D icaron;01D0 igrave;00EC iideva;0908 \
    iparen;24A4 itilde;0129 jadeva;091C jcaron;01F0 jparen;24A5 kacute;1E31 kadeva;0915 kcaron;01E9 \
    kparen;24A6 lacute;013A ladeva;0932 lambda;03BB lcaron;013E lparen;24A7 lslash;0142 luthai;0E26 \
    macron;00AF macute;1E3F madeva;092E middot;00B7 minute;2032 mparen;24A8 nacute;0144 nadeva;0928 \
    ncaron;0148 nparen;24A9 ntilde;00F1 numero;2116 oacute;00F3 obreve;014F ocaron;01D2 ogonek;02DB \
    ograve;00F2 omdeva;0950 omega1;03D6 oparen;24AA option;2325 oslash;00F8 otilde;00F5 pacute;1E55 \
    padeva;092A pageup;21DE period;002E peseta;20A7 pparen;24AB qadeva;0958 qamats;05B8 qparen;24AC \
    qubuts;05BB racute;0155 radeva;0930 rcaron;0159 rparen;24AD rupiah;F6DD ruthai;0E24 sacute;015B \
    sadeva;0938 samekh;05E1 scaron;0161 second;2033 sheqel;20AA sigma1;03C2 sparen;24AE subset;2282 \
    tadeva;0924 tcaron;0165 tccurl;02A8 theta1;03D1 tparen;24AF uacute;00FA ubreve;016D ucaron;01D4 \
    ugrave;00F9 uparen;24B0 utilde;0169 uudeva;090A vadeva;0935 vparen;24B1 vtilde;1E7D wacute;1E83 \
    wgrave;1E81 wparen;24B2 xparen;24B3 yacute;00FD yadeva;092F ygrave;1EF3 yparen;24B4 ytilde;1EF9 \
    zacute;017A zadeva;095B zcaron;017E zparen;24B5 AEacute;01FC AEsmall;F7E6 Acircle;24B6 Amacron;0100 \
    Aogonek;0104 Bcircle;24B7 Btopbar;0182 Ccircle;24B8 DZcaron;01C4 Dcircle;24B9 Dtopbar;018B Dzcaron;01C5 \
    Ecircle;24BA Emacron;0112 Eogonek;0118 Epsilon;0395 Fcircle;24BB Gcircle;24BC Gmacron;1E20 Gstroke;01E4 \
    Hcircle;24BD Icircle;24BE Imacron;012A Iogonek;012E Istroke;0197 Jcircle;24BF Kcircle;24C0 Lcircle;24C1 \
    Mcircle;24C2 Mturned;019C Ncircle;24C3 OEsmall;F6FA Ocircle;24C4 Omacron;014C Omicron;039F Oogonek;01EA \
    Pcircle;24C5 Qcircle;24C6 Rcircle;24C7 Scircle;24C8 Tcircle;24C9 Tonesix;0184 Tonetwo;01A7 Ucircle;24CA \
    Umacron;016A Uogonek;0172 Upsilon;03A5 Vcircle;24CB Wcircle;24CC Xcircle;24CD Ycircle;24CE Zcircle;24CF \
    Zstroke;01B5 acircle;24D0 aeacute;01FD afii299;200E afii300;200F afii301;200D akorean;314F amacron;0101 \
    aogonek;0105 arrowup;2191 ascript;0251 atsmall;FE6B aturned;0250 bcircle;24D1 because;2235 bhadeva;092D \
    braceex;F8F4 bstroke;0180 btopbar;0183 ccircle;24D2 cedilla;00B8 chadeva;091B compass;263C control;2303 \
    curlyor;22CE cyrFlex;F6D2 cyrflex;F6D5 dcircle;24D3 ddadeva;0921 dhadeva;0927 diamond;2666 divides;2223 \
    dkshade;2593 dmacron;0111 dnblock;2584 dotmath;22C5 dtopbar;018C dzcaron;01C6 ecircle;24D4 ekorean;3154 \
    element;2208 emacron;0113 enspace;2002 eogonek;0119 epsilon;03B5 eshcurl;0286 eturned;01DD ezhcurl;0293 \
    ezhtail;01BA fcircle;24D5 finalpe;05E3 fisheye;25C9 gcircle;24D6 ghadeva;0918 gmacron;1E21 greater;003E \
    gscript;0261 gstroke;01E5 hcircle;24D7 hiriq14;05B4 hiriq21;05B4 hiriq2d;05B4 holam19;05B9 holam26;05B9 \
    holam32;05B9 hookcmb;0309 horncmb;031B hturned;0265 icircle;24D8 ikorean;3163 imacron;012B iogonek;012F \
    istroke;0268 jcircle;24D9 jhadeva;091D kcircle;24DA khadeva;0916 kturned;029E lcircle;24DB lfblock;258C \
    lladeva;0933 lozenge;25CA lsquare;2113 ltshade;2591 mcircle;24DC mturned;026F mugreek;03BC nbspace;00A0 \
    ncircle;24DD ngadeva;0919 nnadeva;0923 notless;226E nyadeva;091E obarred;0275 ocircle;24DE okorean;3157 \
    omacron;014D omicron;03BF onedeva;0967 onehalf;00BD onethai;0E51 oogonek;01EB patah11;05B7 patah1d;05B7 \
    patah2a;05B7 pcircle;24DF percent;0025 phadeva;092B plusmod;02D6 product;220F qcircle;24E0 radical;221A \
    rcircle;24E1 rhadeva;095D ringcmb;030A rradeva;0931 rtblock;2590 rturned;0279 scircle;24E2 section;00A7 \
    segol13;05B6 segol1f;05B6 segol2c;05B6 shadeva;0936 sheva15;05B0 sheva22;05B0 sheva2e;05B0 similar;223C \
    sixdeva;096C sixthai;0E56 ssadeva;0937 tcircle;24E3 thadeva;0925 tonesix;0185 tonetwo;01A8 triagdn;25BC \
    triaglf;25C4 triagrt;25BA triagup;25B2 tsere12;05B5 tsere1e;05B5 tsere2b;05B5 ttadeva;091F tturned;0287 \
    twodeva;0968 twothai;0E52 ucircle;24E4 ukorean;315C umacron;016B uogonek;0173 upblock;2580 upsilon;03C5 \
    vcircle;24E5 vturned;028C wcircle;24E6 wturned;028D xcircle;24E7 ycircle;24E8 yinyang;262F yturned;028E \
    yyadeva;095F zcircle;24E9 zstroke;01B6 AEmacron;01E2 Ccedilla;00C7 Dafrican;0189 Dcedilla;1E10 \
    Dieresis;F6CB Etatonos;0389 Ethsmall;F7F0 Ezhcaron;01EE GBsquare;3387 Gcedilla;0122 HPsquare;33CB \
    Hcedilla;1E28 Hzsquare;3390 Ifraktur;2111 KBsquare;3385 KKsquare;33CD Kcedilla;0136 Lcedilla;013B \
    MBsquare;3386 Ncedilla;0145 Oneroman;2160 Rcedilla;0156 Rfraktur;211C SF010000;250C SF020000;2514 \
    SF030000;2510 SF040000;2518 SF050000;253C SF060000;252C SF070000;2534 SF080000;251C SF090000;2524 \
    SF100000;2500 SF110000;2502 SF190000;2561 SF200000;2562 SF210000;2556 SF220000;2555 SF230000;2563 \
    SF240000;2551 SF250000;2557 SF260000;255D SF270000;255C SF280000;255B SF360000;255E SF370000;255F \
    SF380000;255A SF390000;2554 SF400000;2569 SF410000;2566 SF420000;2560 SF430000;2550 SF440000;256C \
    SF450000;2567 SF460000;2568 SF470000;2564 SF480000;2565 SF490000;2559 SF500000;2558 SF510000;2552 \
    SF520000;2553 SF530000;256B SF540000;256A Scedilla;015E Sixroman;2165 Tcedilla;0162 Tenroman;2169 \
    Tonefive;01BC Tworoman;2161 Upsilon1;03D2 abengali;0985 acutecmb;0301 aekorean;3150 aemacron;01E3 \
    allequal;224C amsquare;33C2 angstrom;212B asterisk;002A asterism;2042 bahtthai;0E3F bqsquare;33C3 \
    brevecmb;0306 bullseye;25CE capslock;21EA caroncmb;030C ccedilla;00E7 cdsquare;33C5 circleot;2299 \
    cosquare;33C7 cruzeiro;20A2 curlyand;22CF currency;00A4 cyrBreve;F6D1 cyrbreve;F6D4 dblGrave;F6D3 \
    dbldanda;0965 dblgrave;F6D6 dbsquare;33C8 dcedilla;1E11 ddhadeva;0922 dieresis;00A8 dlsquare;3397 \
    dotlessi;0131 dotlessj;0237 dzaltone;02A3 ebengali;098F ellipsis;2026 emptyset;2205 eokorean;3153 \
    etatonos;03AE eukorean;3161 ezhcaron;01EF finalkaf;05DA finalmem;05DD finalnun;05DF fivedeva;096B \
    fivethai;0E55 fmsquare;3399 fofathai;0E1D fourdeva;096A fourthai;0E54 fraction;2044 gcedilla;0123 \
    getamark;3013 ghhadeva;095A gradient;2207 gravecmb;0300 gysquare;33C9 hasquare;33CA hcedilla;1E29 \
    hedagesh;FB34 hehebrew;05D4 henghook;0267 ibengali;0987 infinity;221E integral;222B kasquare;3384 \
    kcedilla;0137 khhadeva;0959 klsquare;3398 ktsquare;33CF kvsquare;33B8 kwsquare;33BE lcedilla;013C \
    llladeva;0934 lmsquare;33D0 lxsquare;33D3 masquare;3383 mbsquare;33D4 minusmod;02D7 mlsquare;3396 \
    momathai;0E21 mssquare;33B3 muchless;226A multiply;00D7 mvsquare;33B7 mwsquare;33BD nasquare;3381 \
    ncedilla;0146 nfsquare;338B ninedeva;096F ninethai;0E59 nmsquare;339A nnnadeva;0929 nonuthai;0E19 \
    notequal;2260 nssquare;33B1 nvsquare;33B5 nwsquare;33BB oangthai;0E2D obengali;0993 oekorean;315A \
    oneparen;2474 oneroman;2170 onethird;2153 overline;203E pagedown;21DF parallel;2225 pasquare;33A9 \
    pedagesh;FB44 pehebrew;05E4 pfsquare;338A philatin;0278 pmsquare;33D8 precedes;227A primemod;02B9 \
    pssquare;33B0 pvsquare;33B4 pwsquare;33BA qamats10;05B8 qamats1a;05B8 qamats1c;05B8 qamats27;05B8 \
    qamats29;05B8 qamats33;05B8 qamatsde;05B8 qubuts18;05BB qubuts25;05BB qubuts31;05BB question;003F \
    quotedbl;0022 ramshorn;0264 rcedilla;0157 rlongleg;027C scedilla;015F sheva115;05B0 sixparen;2479 \
    sixroman;2175 sosothai;0E0B squarecc;33C4 squarecm;339D squarekg;338F squarekm;339E squareln;33D1 \
    squaremg;338E squaremm;339C srsquare;33DB sterling;00A3 succeeds;227B suchthat;220B superset;2283 \
    svsquare;33DC tackdown;22A4 tackleft;22A3 tavdages;FB4A tcedilla;0163 tenparen;247D tenroman;2179 \
    tildecmb;0303 tonefive;01BD tthadeva;0920 twoparen;2475 tworoman;2171 ubengali;0989 vavholam;FB4B \
    wakorean;3158 wavedash;301C wbsquare;33DD wekorean;315E wikorean;315F yakorean;3151 yekorean;3156 \
    yikorean;3162 yokorean;315B yotgreek;03F3 yukorean;3160 zerodeva;0966 zerothai;0E50 Acyrillic;0410 \
    Adblgrave;0200 Adieresis;00C4 Adotbelow;1EA0 Bdotbelow;1E04 Ddotbelow;1E0C Deicoptic;03EE Ecyrillic;0404 \
    Edblgrave;0204 Edieresis;00CB Edotbelow;1EB8 Ereversed;018E Feicoptic;03E4 Fiveroman;2164 Fourroman;2163 \
    Hdieresis;1E26 Hdotbelow;1E24 Icyrillic;0406 Idblgrave;0208 Idieresis;00CF Idotbelow;1ECA Iotatonos;038A \
    Kdotbelow;1E32 Ldotbelow;1E36 Mdotbelow;1E42 Ndotbelow;1E46 Nhookleft;019D Nineroman;2168 Ocyrillic;041E \
    Odblacute;0150 Odblgrave;020C Odieresis;00D6 Odotbelow;1ECC Rdblgrave;0210 Rdotbelow;1E5A Ringsmall;F6FC \
    Sdotbelow;1E62 Tdotbelow;1E6C Ucyrillic;0423 Udblacute;0170 Udblgrave;0214 Udieresis;00DC Udotbelow;1EE4 \
    Vdotbelow;1E7E Wdieresis;1E84 Wdotbelow;1E88 Xdieresis;1E8C Ydieresis;0178 Ydotbelow;1EF4 Zdotbelow;1E92 \
    aabengali;0986 abopomofo;311A acutecomb;0301 acutedeva;0954 acyrillic;0430 adblgrave;0201 adieresis;00E4 \
    adotbelow;1EA1 afii00208;2015 afii08941;20A4 afii10017;0410 afii10018;0411 afii10019;0412 afii10020;0413 \
    afii10021;0414 afii10022;0415 afii10023;0401 afii10024;0416 afii10025;0417 afii10026;0418 afii10027;0419 \
    afii10028;041A afii10029;041B afii10030;041C afii10031;041D afii10032;041E afii10033;041F afii10034;0420 \
    afii10035;0421 afii10036;0422 afii10037;0423 afii10038;0424 afii10039;0425 afii10040;0426 afii10041;0427 \
    afii10042;0428 afii10043;0429 afii10044;042A afii10045;042B afii10046;042C afii10047;042D afii10048;042E \
    afii10049;042F afii10050;0490 afii10051;0402 afii10052;0403 afii10053;0404 afii10054;0405 afii10055;0406 \
    afii10056;0407 afii10057;0408 afii10058;0409 afii10059;040A afii10060;040B afii10061;040C afii10062;040E \
    afii10063;F6C4 afii10064;F6C5 afii10065;0430 afii10066;0431 afii10067;0432 afii10068;0433 afii10069;0434 \
    afii10070;0435 afii10071;0451 afii10072;0436 afii10073;0437 afii10074;0438 afii10075;0439 afii10076;043A \
    afii10077;043B afii10078;043C afii10079;043D afii10080;043E afii10081;043F afii10082;0440 afii10083;0441 \
    afii10084;0442 afii10085;0443 afii10086;0444 afii10087;0445 afii10088;0446 afii10089;0447 afii10090;0448 \
    afii10091;0449 afii10092;044A afii10093;044B afii10094;044C afii10095;044D afii10096;044E afii10097;044F \
    afii10098;0491 afii10099;0452 afii10100;0453 afii10101;0454 afii10102;0455 afii10103;0456 afii10104;0457 \
    afii10105;0458 afii10106;0459 afii10107;045A afii10108;045B afii10109;045C afii10110;045E afii10145;040F \
    afii10146;0462 afii10147;0472 afii10148;0474 afii10192;F6C6 afii10193;045F afii10194;0463 afii10195;0473 \
    afii10196;0475 afii10831;F6C7 afii10832;F6C8 afii10846;04D9 afii57381;066A afii57388;060C afii57392;0660 \
    afii57393;0661 afii57394;0662 afii57395;0663 afii57396;0664 afii57397;0665 afii57398;0666 afii57399;0667 \
    afii57400;0668 afii57401;0669 afii57403;061B afii57407;061F afii57409;0621 afii57410;0622 afii57411;0623 \
    afii57412;0624 afii57413;0625 afii57414;0626 afii57415;0627 afii57416;0628 afii57417;0629 afii57418;062A \
    afii57419;062B afii57420;062C afii57421;062D afii57422;062E afii57423;062F afii57424;0630 afii57425;0631 \
    afii57426;0632 afii57427;0633 afii57428;0634 afii57429;0635 afii57430;0636 afii57431;0637 afii57432;0638 \
    afii57433;0639 afii57434;063A afii57440;0640 afii57441;0641 afii57442;0642 afii57443;0643 afii57444;0644 \
    afii57445;0645 afii57446;0646 afii57448;0648 afii57449;0649 afii57450;064A afii57451;064B afii57452;064C \
    afii57453;064D afii57454;064E afii57455;064F afii57456;0650 afii57457;0651 afii57458;0652 afii57470;0647 \
    afii57505;06A4 afii57506;067E afii57507;0686 afii57508;0698 afii57509;06AF afii57511;0679 afii57512;0688 \
    afii57513;0691 afii57514;06BA afii57519;06D2 afii57534;06D5 afii57636;20AA afii57645;05BE afii57658;05C3 \
    afii57664;05D0 afii57665;05D1 afii57666;05D2 afii57667;05D3 afii57668;05D4 afii57669;05D5 afii57670;05D6 \
    afii57671;05D7 afii57672;05D8 afii57673;05D9 afii57674;05DA afii57675;05DB afii57676;05DC afii57677;05DD \
    afii57678;05DE afii57679;05DF afii57680;05E0 afii57681;05E1 afii57682;05E2 afii57683;05E3 afii57684;05E4 \
    afii57685;05E5 afii57686;05E6 afii57687;05E7 afii57688;05E8 afii57689;05E9 afii57690;05EA afii57694;FB2A \
    afii57695;FB2B afii57700;FB4B afii57705;FB1F afii57716;05F0 afii57717;05F1 afii57718;05F2 afii57723;FB35 \
    afii57793;05B4 afii57794;05B5 afii57795;05B6 afii57796;05BB afii57797;05B8 afii57798;05B7 afii57799;05B0 \
    afii57800;05B2 afii57801;05B1 afii57802;05B3 afii57803;05C2 afii57804;05C1 afii57806;05B9 afii57807;05BC \
    afii57839;05BD afii57841;05BF afii57842;05C0 afii57929;02BC afii61248;2105 afii61289;2113 afii61352;2116 \
    afii61573;202C afii61574;202D afii61575;202E afii61664;200C afii63167;066D afii64937;02BD agujarati;0A85 \
    agurmukhi;0A05 ahiragana;3042 aibengali;0990 ainarabic;0639 akatakana;30A2 ampersand;0026 angleleft;2329 \
    anoteleia;0387 arrowboth;2194 arrowdown;2193 arrowleft;2190 arrowupdn;2195 asuperior;F6E9 aubengali;0994 \
    babengali;09AC backslash;005C bbopomofo;3105 bdotbelow;1E05 beharabic;0628 betdagesh;FB31 bethebrew;05D1 \
    blackstar;2605 braceleft;007B brokenbar;00A6 bsuperior;F6EA cabengali;099A calsquare;3388 cbopomofo;3118 \
    checkmark;2713 colonsign;20A1 congruent;2245 controlBS;0008 controlCR;000D controlEM;0019 controlFF;000C \
    controlFS;001C controlGS;001D controlHT;0009 controlLF;000A controlRS;001E controlSI;000F controlSO;000E \
    controlUS;001F controlVT;000B copyright;00A9 dabengali;09A6 dadarabic;0636 daggerdbl;2021 dalarabic;062F \
    dbopomofo;3109 dddhadeva;095C ddotbelow;1E0D deicoptic;03EF dittomark;3003 dodekthai;0E14 dotaccent;02D9 \
    dsuperior;F6EB ebopomofo;311C ecyrillic;0454 edblgrave;0205 edieresis;00EB edotbelow;1EB9 egujarati;0A8F \
    ehiragana;3048 eightdeva;096E eightthai;0E58 ekatakana;30A8 ereversed;0258 estimated;212E esuperior;F6EC \
    exclamdbl;203C fbopomofo;3108 feharabic;0641 feicoptic;03E5 filledbox;25A0 fiveparen;2478 fiveroman;2174 \
    fofanthai;0E1F fourparen;2477 fourroman;2173 gabengali;0997 gafarabic;06AF gbopomofo;310D ghzsquare;3393 \
    gpasquare;33AC gravecomb;0300 gravedeva;0953 habengali;09B9 haharabic;062D hbopomofo;310F hdieresis;1E27 \
    hdotbelow;1E25 heharabic;0647 hethebrew;05D7 hohipthai;0E2B hsuperior;02B0 hyphentwo;2010 ibopomofo;3127 \
    icyrillic;0456 idblgrave;0209 idieresis;00EF idotbelow;1ECB igujarati;0A87 igurmukhi;0A07 ihiragana;3044 \
    iibengali;0988 ikatakana;30A4 increment;2206 invbullet;25D8 invcircle;25D9 iotalatin;0269 iotatonos;03AF \
    isuperior;F6ED jabengali;099C jbopomofo;3110 jeharabic;0698 jsuperior;02B2 kabengali;0995 kafarabic;0643 \
    kafdagesh;FB3B kafhebrew;05DB kbopomofo;310E kdotbelow;1E33 khzsquare;3391 kokaithai;0E01 kpasquare;33AA \
    labengali;09B2 lamarabic;0644 lbopomofo;310C ldotbelow;1E37 lessequal;2264 lesssmall;FE64 logicalor;2228 \
    lsuperior;F6EE mabengali;09AE macroncmb;0304 maiekthai;0E48 mbopomofo;3107 mdotbelow;1E43 memdagesh;FB3E \
    memhebrew;05DE mhzsquare;3392 minusplus;2213 molsquare;33D6 mpasquare;33AB msuperior;F6EF muasquare;3382 \
    mufsquare;338C mugsquare;338D mulsquare;3395 mumsquare;339B mussquare;33B2 muvsquare;33B6 muwsquare;33BC \
    nabengali;09A8 nbopomofo;310B ndotbelow;1E47 nhiragana;3093 nhookleft;0272 nineparen;247C nineroman;2178 \
    nkatakana;30F3 nonenthai;0E13 notsubset;2284 nsuperior;207F nuktadeva;093C nundagesh;FB40 nunhebrew;05E0 \
    obopomofo;311B ocyrillic;043E odblacute;0151 odblgrave;020D odieresis;00F6 odotbelow;1ECD ogonekcmb;0328 \
    ogujarati;0A93 ohiragana;304A okatakana;30AA olehebrew;05AB onearabic;0661 onecircle;2460 oneeighth;215B \
    onefitted;F6DC oneperiod;2488 osuperior;F6F0 overscore;00AF pabengali;09AA paragraph;00B6 parenleft;0028 \
    pbopomofo;3106 peharabic;067E plusminus;00B1 plussmall;FE62 poplathai;0E1B propellor;2318 qafarabic;0642 \
    qbopomofo;3111 qofdagesh;FB47 qofhebrew;05E7 quoteleft;2018 rabengali;09B0 radicalex;F8E5 radsquare;33AD \
    rbopomofo;3116 rdblgrave;0211 rdotbelow;1E5B reharabic;0631 rfishhook;027E roruathai;0E23 rsuperior;F6F1 \
    sabengali;09B8 sadarabic;0635 saraathai;0E30 saraethai;0E40 saraithai;0E34 saraothai;0E42 sarauthai;0E38 \
    sbopomofo;3119 schwahook;025A sdotbelow;1E63 semicolon;003B sevendeva;096D seventhai;0E57 sfthyphen;00AD \
    shadedark;2593 sixarabic;0666 sixcircle;2465 sixperiod;248D smileface;263A sosuathai;0E2A squarelog;33D2 \
    squaremil;33D5 ssuperior;F6F2 summation;2211 tabengali;09A4 taharabic;0637 tavdagesh;FB4A tavhebrew;05EA \
    tbopomofo;310A tdieresis;1E97 tdotbelow;1E6D teharabic;062A telephone;2121 tencircle;2469 tenperiod;2491 \
    tetdagesh;FB38 tethebrew;05D8 therefore;2234 threedeva;0969 threethai;0E53 thzsquare;3394 tildecomb;0303 \
    tonsquare;3327 totaothai;0E15 trademark;2122 tsuperior;F6F3 twoarabic;0662 twocircle;2461 twoperiod;2489 \
    twostroke;01BB twothirds;2154 ubopomofo;3128 ucyrillic;0443 udblacute;0171 udblgrave;0215 udieresis;00FC \
    udotbelow;1EE5 ugujarati;0A89 ugurmukhi;0A09 uhiragana;3046 ukatakana;30A6 universal;2200 uptackmod;02D4 \
    uubengali;098A vavdagesh;FB35 vavhebrew;05D5 vdotbelow;1E7F veharabic;06A4 waekorean;3159 wawarabic;0648 \
    wdieresis;1E85 wdotbelow;1E89 weokorean;315D whitestar;2606 wsuperior;02B7 xabovecmb;033D xbopomofo;3112 \
    xdieresis;1E8D xsuperior;02E3 yabengali;09AF yaekorean;3152 ydieresis;00FF ydotbelow;1EF5 yeharabic;064A \
    yeokorean;3155 yoddagesh;FB39 yodhebrew;05D9 yoikorean;3189 yoyakthai;0E22 ysuperior;02B8 yuikorean;318C \
    zaharabic;0638 zbopomofo;3117 zdotbelow;1E93 Acutesmall;F7B4 Adotmacron;01E0 Ahookabove;1EA2 \
    Alphatonos;0386 Amonospace;FF21 Aringacute;01FA Aringbelow;1E00 Aringsmall;F7E5 Bdotaccent;1E02 \
    Becyrillic;0411 Blinebelow;1E06 Bmonospace;FF22 Brevesmall;F6F4 Caarmenian;053E Caronsmall;F6F5 \
    Cdotaccent;010A Cmonospace;FF23 Coarmenian;0551 Daarmenian;0534 Ddotaccent;1E0A Decyrillic;0414 \
    Deltagreek;0394 Dlinebelow;1E0E Dmonospace;FF24 Edotaccent;0116 Efcyrillic;0424 Eharmenian;0537 \
    Ehookabove;1EBA Eightroman;2167 Elcyrillic;041B Emcyrillic;041C Emonospace;FF25 Encyrillic;041D \
    Ercyrillic;0420 Escyrillic;0421 Etarmenian;0538 Fdotaccent;1E1E Fmonospace;FF26 Gdotaccent;0120 \
    Gecyrillic;0413 Germandbls;1E9E Gmonospace;FF27 Gravesmall;F760 Gsmallhook;029B Hdotaccent;1E22 \
    Hmonospace;FF28 Hoarmenian;0540 Horicoptic;03E8 IAcyrillic;042F IUcyrillic;042E Idotaccent;0130 \
    Iecyrillic;0415 Ihookabove;1EC8 Iicyrillic;0418 Imonospace;FF29 Iocyrillic;0401 Jaarmenian;0541 \
    Jecyrillic;0408 Jmonospace;FF2A Kacyrillic;041A Kheicoptic;03E6 Klinebelow;1E34 Kmonospace;FF2B \
    Koppagreek;03DE Ldotaccent;013F Llinebelow;1E3A Lmonospace;FF2C Mdotaccent;1E40 Mmonospace;FF2D \
    Ndotaccent;1E44 Nlinebelow;1E48 Nmonospace;FF2E Oharmenian;0555 Ohookabove;1ECE Ohornacute;1EDA \
    Ohorngrave;1EDC Ohorntilde;1EE0 Omegagreek;03A9 Omegatonos;038F Omonospace;FF2F Otcyrillic;047E \
    Pdotaccent;1E56 Pecyrillic;041F Pmonospace;FF30 Qmonospace;FF31 Raarmenian;054C Rdotaccent;1E58 \
    Rlinebelow;1E5E Rmonospace;FF32 Sampigreek;03E0 Sdotaccent;1E60 Sevenroman;2166 Sheicoptic;03E2 \
    Smonospace;FF33 Tdotaccent;1E6A Tecyrillic;0422 Thornsmall;F7FE Threeroman;2162 Tildesmall;F6FE \
    Tlinebelow;1E6E Tmonospace;FF34 Toarmenian;0539 Uhookabove;1EE6 Uhornacute;1EE8 Uhorngrave;1EEA \
    Uhorntilde;1EEE Ukcyrillic;0478 Umonospace;FF35 Vecyrillic;0412 Vmonospace;FF36 Voarmenian;0548 \
    Wdotaccent;1E86 Wmonospace;FF37 Xdotaccent;1E8A Xmonospace;FF38 Ydotaccent;1E8E Yhookabove;1EF6 \
    Yiarmenian;0545 Yicyrillic;0407 Ymonospace;FF39 Zaarmenian;0536 Zdotaccent;017B Zecyrillic;0417 \
    Zlinebelow;1E94 Zmonospace;FF3A aagujarati;0A86 aagurmukhi;0A06 aarusquare;3303 adotmacron;01E1 \
    ahookabove;1EA3 aibopomofo;311E aigujarati;0A90 aigurmukhi;0A10 alefarabic;0627 alefhebrew;05D0 \
    alphatonos;03AC amonospace;FF41 anbopomofo;3122 angleright;232A approaches;2250 aringacute;01FB \
    aringbelow;1E01 arrowdblup;21D1 arrowright;2192 asciitilde;007E aubopomofo;3120 augujarati;0A94 \
    augurmukhi;0A14 ayinhebrew;05E2 bagujarati;0AAC bagurmukhi;0A2C bahiragana;3070 bakatakana;30D0 \
    bdotaccent;1E03 becyrillic;0431 behiragana;3079 bekatakana;30D9 bhabengali;09AD bihiragana;3073 \
    bikatakana;30D3 birusquare;3331 blinebelow;1E07 bmonospace;FF42 bohiragana;307C bokatakana;30DC \
    braceright;007D buhiragana;3076 bukatakana;30D6 caarmenian;056E cagujarati;0A9A cagurmukhi;0A1A \
    cdotaccent;010B cedillacmb;0327 centigrade;2103 chabengali;099B chbopomofo;3114 circleplus;2295 \
    circumflex;02C6 cmonospace;FF43 coarmenian;0581 colonsmall;FE55 commasmall;FE50 controlACK;0006 \
    controlBEL;0007 controlCAN;0018 controlDC1;0011 controlDC2;0012 controlDC3;0013 controlDC4;0014 \
    controlDEL;007F controlDLE;0010 controlENQ;0005 controlEOT;0004 controlESC;001B controlETB;0017 \
    controlETX;0003 controlNAK;0015 controlSOT;0002 controlSTX;0001 controlSUB;001A controlSYN;0016 \
    cstretched;0297 daarmenian;0564 dagujarati;0AA6 dagurmukhi;0A26 dahiragana;3060 dakatakana;30C0 \
    dbllowline;2017 ddabengali;09A1 ddalarabic;0688 ddotaccent;1E0B decyrillic;0434 dehihebrew;05AD \
    dehiragana;3067 dekatakana;30C7 deleteleft;232B dhabengali;09A7 dihiragana;3062 dikatakana;30C2 \
    dlinebelow;1E0F dmonospace;FF44 dohiragana;3069 dokatakana;30C9 dorusquare;3326 duhiragana;3065 \
    dukatakana;30C5 edotaccent;0117 eegurmukhi;0A0F efcyrillic;0444 eharmenian;0567 ehbopomofo;311D \
    ehookabove;1EBB eibopomofo;311F eightparen;247B eightroman;2177 elcyrillic;043B emcyrillic;043C \
    emonospace;FF45 enbopomofo;3123 encyrillic;043D equalsmall;FE66 erbopomofo;3126 ercyrillic;0440 \
    escyrillic;0441 eshortdeva;090E etarmenian;0568 exclamdown;00A1 fagurmukhi;0A5E fahrenheit;2109 \
    fdotaccent;1E1F figuredash;2012 filledrect;25AC finaltsadi;05E5 fivearabic;0665 fivecircle;2464 \
    fiveperiod;248C fmonospace;FF46 fourarabic;0664 fourcircle;2463 fourperiod;248B gagujarati;0A97 \
    gagurmukhi;0A17 gahiragana;304C gakatakana;30AC gdotaccent;0121 gecyrillic;0433 gehiragana;3052 \
    gekatakana;30B2 germandbls;00DF ghabengali;0998 gihiragana;304E gikatakana;30AE gmonospace;FF47 \
    gohiragana;3054 gokatakana;30B4 guhiragana;3050 gukatakana;30B0 hagujarati;0AB9 hagurmukhi;0A39 \
    hahiragana;306F hakatakana;30CF hatafpatah;05B2 hatafsegol;05B1 hdotaccent;1E23 hehiragana;3078 \
    hekatakana;30D8 hihiragana;3072 hikatakana;30D2 hlinebelow;1E96 hmonospace;FF48 hoarmenian;0570 \
    hohiragana;307B hokatakana;30DB hoonsquare;3342 horicoptic;03E9 hotsprings;2668 huhiragana;3075 \
    hukatakana;30D5 iacyrillic;044F iecyrillic;0435 ihookabove;1EC9 iicyrillic;0438 iigujarati;0A88 \
    iigurmukhi;0A08 iluyhebrew;05AC imonospace;FF49 integralbt;2321 integralex;F8F5 integraltp;2320 \
    intisquare;3305 iocyrillic;0451 iubopomofo;3129 iucyrillic;044E jaarmenian;0571 jagujarati;0A9C \
    jagurmukhi;0A1C jecyrillic;0458 jeemarabic;062C jhabengali;099D jmonospace;FF4A kacyrillic;043A \
    kagujarati;0A95 kagurmukhi;0A15 kahiragana;304B kakatakana;30AB kcalsquare;3389 kehiragana;3051 \
    kekatakana;30B1 khabengali;0996 khaharabic;062E kheicoptic;03E7 khomutthai;0E5B kihiragana;304D \
    kikatakana;30AD kirosquare;3314 klinebelow;1E35 kmonospace;FF4B kohiragana;3053 kohmsquare;33C0 \
    kokatakana;30B3 koroniscmb;0343 kuhiragana;304F kukatakana;30AF lagujarati;0AB2 lagurmukhi;0A32 \
    ldotaccent;0140 llinebelow;1E3B lmonospace;FF4C logicaland;2227 logicalnot;00AC lolingthai;0E25 \
    lowlinecmb;0332 magujarati;0AAE magurmukhi;0A2E mahiragana;307E maithothai;0E49 maitrithai;0E4A \
    makatakana;30DE mdotaccent;1E41 meemarabic;0645 mehiragana;3081 mekatakana;30E1 mihiragana;307F \
    mikatakana;30DF mirisquare;3349 mmonospace;FF4D mohiragana;3082 mohmsquare;33C1 mokatakana;30E2 \
    muhiragana;3080 mukatakana;30E0 nagujarati;0AA8 nagurmukhi;0A28 nahiragana;306A nakatakana;30CA \
    ndotaccent;1E45 nehiragana;306D nekatakana;30CD ngabengali;0999 ngonguthai;0E07 nihiragana;306B \
    nikatakana;30CB ninearabic;0669 ninecircle;2468 nineperiod;2490 nlinebelow;1E49 nmonospace;FF4E \
    nnabengali;09A3 nohiragana;306E nokatakana;30CE noonarabic;0646 notelement;2209 notgreater;226F \
    nuhiragana;306C nukatakana;30CC numbersign;0023 nyabengali;099E oharmenian;0585 ohookabove;1ECF \
    ohornacute;1EDB ohorngrave;1EDD ohorntilde;1EE1 omegatonos;03CE omgujarati;0AD0 omonospace;FF4F \
    onebengali;09E7 onepersian;06F1 onequarter;00BC oogurmukhi;0A13 openbullet;25E6 orthogonal;221F \
    oshortdeva;0912 otcyrillic;047F oubopomofo;3121 pagujarati;0AAA pagurmukhi;0A2A pahiragana;3071 \
    pakatakana;30D1 parenright;0029 pdotaccent;1E57 pecyrillic;043F pehiragana;307A pekatakana;30DA \
    phabengali;09AB pihiragana;3074 pikatakana;30D4 pluscircle;2295 pmonospace;FF50 pohiragana;307D \
    pokatakana;30DD postalmark;3012 projective;2305 proportion;2237 puhiragana;3077 pukatakana;30D7 \
    qmonospace;FF51 quoteright;2019 raarmenian;057C rafehebrew;05BF ragujarati;0AB0 ragurmukhi;0A30 \
    rahiragana;3089 rakatakana;30E9 rdotaccent;1E59 registered;00AE rehiragana;308C rekatakana;30EC \
    reshhebrew;05E8 rhabengali;09DD rightangle;221F rihiragana;308A rikatakana;30EA rlinebelow;1E5F \
    rmonospace;FF52 rohiragana;308D rokatakana;30ED rrabengali;09DC rreharabic;0691 ruhiragana;308B \
    rukatakana;30EB sagujarati;0AB8 sagurmukhi;0A38 sahiragana;3055 sakatakana;30B5 saraaathai;0E32 \
    saraaethai;0E41 saraamthai;0E33 saraiithai;0E35 sarauethai;0E36 sarauuthai;0E39 sdotaccent;1E61 \
    seenarabic;0633 sehiragana;305B sekatakana;30BB sevenparen;247A sevenroman;2176 shabengali;09B6 \
    shadelight;2591 shbopomofo;3115 sheicoptic;03E3 shindagesh;FB49 shinhebrew;05E9 shinsindot;FB2B \
    sigmafinal;03C2 sihiragana;3057 sikatakana;30B7 sioskorean;3145 sixbengali;09EC sixpersian;06F6 \
    smonospace;FF53 softhyphen;00AD sohiragana;305D sokatakana;30BD sorusithai;0E29 sosalathai;0E28 \
    ssabengali;09B7 suhiragana;3059 sukatakana;30B9 tagujarati;0AA4 tagurmukhi;0A24 tahiragana;305F \
    takatakana;30BF tdotaccent;1E6B tecyrillic;0442 tehiragana;3066 tekatakana;30C6 thabengali;09A5 \
    thalarabic;0630 theharabic;062B threeparen;2476 threeroman;2172 tihiragana;3061 tikatakana;30C1 \
    tlinebelow;1E6F tmonospace;FF54 toarmenian;0569 tohiragana;3068 tokatakana;30C8 ttabengali;099F \
    tteharabic;0679 tuhiragana;3064 tukatakana;30C4 twobengali;09E8 twopersian;06F2 udattadeva;0951 \
    uhookabove;1EE7 uhornacute;1EE9 uhorngrave;1EEB uhorntilde;1EEF ukcyrillic;0479 umonospace;FF55 \
    underscore;005F uugujarati;0A8A uugurmukhi;0A0A vagujarati;0AB5 vagurmukhi;0A35 vakatakana;30F7 \
    vecyrillic;0432 vekatakana;30F9 vikatakana;30F8 viramadeva;094D vmonospace;FF56 voarmenian;0578 \
    vokatakana;30FA vuhiragana;3094 vukatakana;30F4 wahiragana;308F wakatakana;30EF wdotaccent;1E87 \
    wehiragana;3091 wekatakana;30F1 wihiragana;3090 wikatakana;30F0 wmonospace;FF57 wohiragana;3092 \
    wokatakana;30F2 wowaenthai;0E27 xdotaccent;1E8B xmonospace;FF58 yagujarati;0AAF yagurmukhi;0A2F \
    yahiragana;3084 yakatakana;30E4 ydotaccent;1E8F yhookabove;1EF7 yiarmenian;0575 yicyrillic;0457 \
    ymonospace;FF59 yohiragana;3088 yokatakana;30E8 yoyakorean;3187 yoyingthai;0E0D yuhiragana;3086 \
    yukatakana;30E6 yuyekorean;318B yyabengali;09DF zaarmenian;0566 zagurmukhi;0A5B zahiragana;3056 \
    zainarabic;0632 zakatakana;30B6 zdotaccent;017C zecyrillic;0437 zehiragana;305C zekatakana;30BC \
    zeroarabic;0660 zhbopomofo;3113 zihiragana;3058 zikatakana;30B8 zlinebelow;1E95 zmonospace;FF5A \
    zohiragana;305E zokatakana;30BE zuhiragana;305A zukatakana;30BA Aacutesmall;F7E1 Abreveacute;1EAE \
    Abrevegrave;1EB0 Abrevetilde;1EB4 Acircumflex;00C2 Agravesmall;F7E0 Aiecyrillic;04D4 Atildesmall;F7E3 \
    Aybarmenian;0531 Benarmenian;0532 Ccircumflex;0108 Chaarmenian;0549 Checyrillic;0427 Djecyrillic;0402 \
    Dzecyrillic;0405 Eacutesmall;F7E9 Echarmenian;0535 Ecircumflex;00CA Egravesmall;F7E8 Elevenroman;216A \
    Etildebelow;1E1A Ezhreversed;01B8 Feharmenian;0556 Gcircumflex;011C Gimarmenian;0533 Gjecyrillic;0403 \
    Hbrevebelow;1E2A Hcircumflex;0124 Iacutesmall;F7ED Icircumflex;00CE Igravesmall;F7EC Iniarmenian;053B \
    Iotaafrican;0196 Itildebelow;1E2C Jcircumflex;0134 Keharmenian;0554 Kenarmenian;053F Khacyrillic;0425 \
    Kjecyrillic;040C Ksicyrillic;046E Ljecyrillic;0409 Lslashsmall;F6F9 Macronsmall;F7AF Menarmenian;0544 \
    Njecyrillic;040A Nowarmenian;0546 Ntildesmall;F7F1 Oacutesmall;F7F3 Ocircumflex;00D4 Ogoneksmall;F6FB \
    Ogravesmall;F7F2 Oslashacute;01FE Oslashsmall;F7F8 Otildeacute;1E4C Otildesmall;F7F5 Peharmenian;054A \
    Psicyrillic;0470 Reharmenian;0550 Scaronsmall;F6FD Scircumflex;015C Seharmenian;054D Shaarmenian;0547 \
    Shacyrillic;0428 Shimacoptic;03EC Stigmagreek;03DA Tsecyrillic;0426 Twelveroman;216B Uacutesmall;F7FA \
    Ucircumflex;00DB Ugravesmall;F7F9 Utildeacute;1E78 Utildebelow;1E74 Vewarmenian;054E Wcircumflex;0174 \
    Xeharmenian;053D Yacutesmall;F7FD Yatcyrillic;0462 Ycircumflex;0176 Zcaronsmall;F6FF Zcircumflex;1E90 \
    Zhearmenian;053A Zhecyrillic;0416 abreveacute;1EAF abrevegrave;1EB1 abrevetilde;1EB5 acircumflex;00E2 \
    acutelowmod;02CF aiecyrillic;04D5 angbopomofo;3124 approxequal;2248 araeakorean;318D arrowdashup;21E1 \
    arrowupleft;2196 arrowvertex;F8E6 asciicircum;005E atmonospace;FF20 aybarmenian;0561 benarmenian;0562 \
    bhagujarati;0AAD bhagurmukhi;0A2D blackcircle;25CF blacksquare;25A0 braceleftbt;F8F3 bracelefttp;F8F1 \
    bracketleft;005B ccircumflex;0109 chaarmenian;0579 chagujarati;0A9B chagurmukhi;0A1B checyrillic;0447 \
    chochanthai;0E08 chochoethai;0E0C cieuckorean;3148 clickdental;01C0 commaaccent;F6C3 commaarabic;060C \
    daletdagesh;FB33 dalethebrew;05D3 dammaarabic;064F dargahebrew;05A7 dblgravecmb;030F dblintegral;222C \
    dblprimemod;02BA ddagujarati;0AA1 ddagurmukhi;0A21 ddhabengali;09A2 deleteright;2326 deltaturned;018D \
    dhagujarati;0AA7 dhagurmukhi;0A27 dieresiscmb;0308 djecyrillic;0452 dochadathai;0E0E dollarsmall;FE69 \
    dotbelowcmb;0323 dotkatakana;30FB downtackmod;02D5 dzecyrillic;0455 ecandradeva;090D echarmenian;0565 \
    ecircumflex;00EA eightarabic;0668 eightcircle;2467 eightperiod;248F elevenparen;247E elevenroman;217A \
    engbopomofo;3125 eopenclosed;029A equivalence;2261 etildebelow;1E1B exclamsmall;F721 existential;2203 \
    ezhreversed;01B9 fathaarabic;064E feharmenian;0586 fivebengali;09EB fiveeighths;215D fivepersian;06F5 \
    fongmanthai;0E4F fourbengali;09EA fourpersian;06F4 gcircumflex;011D ghagujarati;0A98 ghagurmukhi;0A18 \
    ghainarabic;063A gimarmenian;0563 gimeldagesh;FB32 gimelhebrew;05D2 gjecyrillic;0453 glottalstop;0294 \
    gravelowmod;02CE haitusquare;332A hamzaarabic;0621 hatafqamats;05B3 hbrevebelow;1E2B hcircumflex;0125 \
    hieuhkorean;314E hiriqhebrew;05B4 holamhebrew;05B9 hyphensmall;FE63 icircumflex;00EE ieungkorean;3147 \
    iniarmenian;056B integraltop;2320 irigurmukhi;0A72 itildebelow;1E2D jcircumflex;0135 jhagujarati;0A9D \
    jhagurmukhi;0A1D kasraarabic;0650 keharmenian;0584 kenarmenian;056F khacyrillic;0445 khagujarati;0A96 \
    khagurmukhi;0A16 khokhaithai;0E02 khokhonthai;0E05 kjecyrillic;045C kooposquare;331E ksicyrillic;046F \
    lameddagesh;FB3C lamedhebrew;05DC largecircle;25EF ljecyrillic;0459 llagujarati;0AB3 lochulathai;0E2C \
    maqafhebrew;05BE menarmenian;0574 mieumkorean;3141 minuscircle;2296 muchgreater;226B munahhebrew;05A3 \
    musicalnote;266A napostrophe;0149 ngagujarati;0A99 ngagurmukhi;0A19 nieunkorean;3134 ninebengali;09EF \
    ninepersian;06F9 njecyrillic;045A nnagujarati;0AA3 nnagurmukhi;0A23 notcontains;220C notparallel;2226 \
    notprecedes;2280 notsucceeds;2281 notsuperset;2285 nowarmenian;0576 nyagujarati;0A9E nyagurmukhi;0A1E \
    ocandradeva;0911 ocircumflex;00F4 onegujarati;0AE7 onegurmukhi;0A67 onehangzhou;3021 oneinferior;2081 \
    oneoldstyle;F731 onesuperior;00B9 ordfeminine;00AA oslashacute;01FF otildeacute;1E4D overlinecmb;0305 \
    parenleftbt;F8ED parenleftex;F8EC parenlefttp;F8EB partialdiff;2202 paseqhebrew;05C0 patahhebrew;05B7 \
    pazerhebrew;05A1 peezisquare;333B peharmenian;057A periodsmall;FE52 perthousand;2030 phagujarati;0AAB \
    phagurmukhi;0A2B phinthuthai;0E3A phophanthai;0E1E pieupkorean;3142 psicyrillic;0471 qadmahebrew;05A8 \
    quarternote;2669 quoterightn;0149 quotesingle;0027 reharmenian;0580 reviahebrew;0597 rhookturned;027B \
    rieulkorean;3139 rragurmukhi;0A5C saraueethai;0E37 scircumflex;015D segolhebrew;05B6 seharmenian;057D \
    sentisquare;3322 sentosquare;3323 sevenarabic;0667 sevencircle;2466 sevenperiod;248E shaarmenian;0577 \
    shacyrillic;0448 shademedium;2592 shagujarati;0AB6 shagurmukhi;0A36 sheenarabic;0634 shevahebrew;05B0 \
    shimacoptic;03ED shinshindot;FB2A siluqhebrew;05BD sixgujarati;0AEC sixgurmukhi;0A6C sixhangzhou;3026 \
    sixinferior;2086 sixoldstyle;F736 sixsuperior;2076 ssagujarati;0AB7 sukunarabic;0652 tcheharabic;0686 \
    tevirhebrew;059B thagujarati;0AA5 thagurmukhi;0A25 thereexists;2203 thothanthai;0E10 threearabic;0663 \
    threecircle;2462 threeperiod;248A timescircle;2297 topatakthai;0E0F tsadidagesh;FB46 tsadihebrew;05E6 \
    tsecyrillic;0446 tserehebrew;05B5 ttagujarati;0A9F ttagurmukhi;0A1F tthabengali;09A0 twelveparen;247F \
    twelveroman;217B twentyparen;2487 twogujarati;0AE8 twogurmukhi;0A68 twohangzhou;3022 twoinferior;2082 \
    twooldstyle;F732 twosuperior;00B2 ucircumflex;00FB uragurmukhi;0A73 utildeacute;1E79 utildebelow;1E75 \
    vavdagesh65;FB35 verticalbar;007C vewarmenian;057E visargadeva;0903 wattosquare;3357 wcircumflex;0175 \
    weierstrass;2118 whitebullet;25E6 whitecircle;25CB whitesquare;25A1 xeharmenian;056D yaadosquare;334E \
    yatcyrillic;0463 ycircumflex;0177 yetivhebrew;059A yoyaekorean;3188 yuyeokorean;318A zarqahebrew;0598 \
    zayindagesh;FB36 zayinhebrew;05D6 zcircumflex;1E91 zerobengali;09E6 zeropersian;06F0 zhearmenian;056A \
    zhecyrillic;0436 zinorhebrew;05AE Cedillasmall;F7B8 Cheharmenian;0543 Digammagreek;03DC \
    Dzhecyrillic;040F Emacronacute;1E16 Emacrongrave;1E14 Epsilontonos;0388 Fitacyrillic;0472 \
    Gammaafrican;0194 Gangiacoptic;03EA Gcommaaccent;0122 Ghadarmenian;0542 Hungarumlaut;F6CF \
    Iotadieresis;03AA Jheharmenian;054B Kcommaaccent;0136 Lcommaaccent;013B Liwnarmenian;053C \
    Ncommaaccent;0145 Omacronacute;1E52 Omacrongrave;1E50 Omicrontonos;038C Ostrokeacute;01FE \
    Piwrarmenian;0553 Rcommaaccent;0156 Scommaaccent;0218 Shhacyrillic;04BA Tcommaaccent;0162 \
    Tiwnarmenian;054F Tshecyrillic;040B Upsilontonos;038E Yericyrillic;042B Yiwnarmenian;0552 \
    acutetonecmb;0341 anudattadeva;0952 anusvaradeva;0902 apaatosquare;3300 araeaekorean;318E \
    arrowdblboth;21D4 arrowdbldown;21D3 arrowdblleft;21D0 arrowhorizex;F8E7 arrowleftdbl;21D0 \
    arrowtableft;21E4 arrowupdnbse;21A8 arrowupright;2197 arrowupwhite;21E7 asteriskmath;2217 \
    avagrahadeva;093D barmonospace;FF5C blackdiamond;25C6 bobaimaithai;0E1A braceleftmid;F8F2 \
    bracerightbt;F8FE bracerighttp;F8FC bracketright;005D centinferior;F6DF centoldstyle;F7A2 \
    centsuperior;F6E0 cheharmenian;0573 chochangthai;0E0A chochingthai;0E09 clicklateral;01C1 \
    compwordmark;200C dageshhebrew;05BC dblarrowleft;21D4 ddhagujarati;0AA2 ddhagurmukhi;0A22 \
    dotaccentcmb;0307 dotbelowcomb;0323 dottedcircle;25CC dzhecyrillic;045F eightbengali;09EE \
    eightpersian;06F8 elevencircle;246A elevenperiod;2492 emacronacute;1E17 emacrongrave;1E15 \
    epsilontonos;03AD fifteenparen;2482 fitacyrillic;0473 fivegujarati;0AEB fivegurmukhi;0A6B \
    fivehangzhou;3025 fiveinferior;2085 fiveoldstyle;F735 fivesuperior;2075 fourgujarati;0AEA \
    fourgurmukhi;0A6A fourhangzhou;3024 fourinferior;2084 fouroldstyle;F734 foursuperior;2074 \
    gangiacoptic;03EB gcommaaccent;0123 gereshhebrew;05F3 ghadarmenian;0572 ghhagurmukhi;0A5A \
    gravetonecmb;0340 greaterequal;2265 greatersmall;FE65 guramusquare;3318 hangulfiller;3164 \
    hatafpatah16;05B2 hatafpatah23;05B2 hatafpatah2f;05B2 hatafsegol17;05B1 hatafsegol24;05B1 \
    hatafsegol30;05B1 herutusquare;3339 honokhukthai;0E2E huiitosquare;3333 hungarumlaut;02DD \
    intersection;2229 invsmileface;263B iotadieresis;03CA jcrossedtail;029D jheharmenian;057B \
    kcommaaccent;0137 kgreenlandic;0138 khhagurmukhi;0A59 khokhuatthai;0E03 khokhwaithai;0E04 \
    kiyeokkorean;3131 lambdastroke;019B lcommaaccent;013C liwnarmenian;056C lmiddletilde;026B \
    lvocalicdeva;090C macronlowmod;02CD maiyamokthai;0E46 mcubedsquare;33A5 merkhahebrew;05A5 \
    moverssquare;33A7 mvmegasquare;33B9 mwmegasquare;33BF ncommaaccent;0146 nikhahitthai;0E4D \
    ninegujarati;0AEF ninegurmukhi;0A6F ninehangzhou;3029 nineinferior;2089 nineoldstyle;F739 \
    ninesuperior;2079 notelementof;2209 notidentical;2262 nuktabengali;09BC omacronacute;1E53 \
    omacrongrave;1E51 omicrontonos;03CC one.superior;00B9 onemonospace;FF11 ordmasculine;00BA \
    ostrokeacute;01FF overlinewavy;FE4B paampssquare;3380 parenrightbt;F8F8 parenrightex;F8F7 \
    parenrighttp;F8F6 pashtahebrew;0599 perafehebrew;FB4E percentsmall;FE6A phophungthai;0E1C \
    piwrarmenian;0583 plusbelowcmb;031F plussuperior;207A prescription;211E propersubset;2282 \
    proportional;221D qamatshebrew;05B8 qubutshebrew;05BB questiondown;00BF quotedblbase;201E \
    quotedblleft;201C rcommaaccent;0157 reflexsubset;2286 registersans;F8E8 ringbelowcmb;0325 \
    ringhalfleft;02BF rvocalicdeva;090B samekhdagesh;FB41 samekhhebrew;05E1 scommaaccent;0219 \
    sevenbengali;09ED seveneighths;215E sevenpersian;06F7 shaddaarabic;0651 sheqelhebrew;20AA \
    shhacyrillic;04BB sindothebrew;05C2 sixmonospace;FF16 sixteenparen;2483 tcommaaccent;0163 \
    thothongthai;0E18 thothungthai;0E16 threebengali;09E9 threeeighths;215C threepersian;06F3 \
    tikeutkorean;3137 tipehahebrew;0596 tiwnarmenian;057F tpalatalhook;01AB tshecyrillic;045B \
    tthagujarati;0AA0 tthagurmukhi;0A20 twelvecircle;246B twelveperiod;2493 twentycircle;2473 \
    twentyperiod;249B two.superior;00B2 twodotleader;2025 twomonospace;FF12 upsilonlatin;028A \
    upsilontonos;03CD vavvavhebrew;05F0 vavyodhebrew;05F1 visiblespace;2423 whitediamond;25C7 \
    wonmonospace;FFE6 yamakkanthai;0E4E yenmonospace;FFE5 yericyrillic;044B yiwnarmenian;0582 \
    yodyodhebrew;05F2 zerogujarati;0AE6 zerogurmukhi;0A66 zeroinferior;2080 zerooldstyle;F730 \
    zerosuperior;2070 Ccedillaacute;1E08 Ccedillasmall;F7E7 DieresisAcute;F6CC DieresisGrave;F6CD \
    Dieresissmall;F7A8 Ecedillabreve;1E1C Enghecyrillic;04A4 Koppacyrillic;0480 Ohorndotbelow;1EE2 \
    Ohungarumlaut;0150 Omegacyrillic;0460 Oogonekmacron;01EC Schwacyrillic;04D8 Shchacyrillic;0429 \
    Tetsecyrillic;04B4 Uhorndotbelow;1EF0 Uhungarumlaut;0170 acutebelowcmb;0317 addakgurmukhi;0A71 \
    apostrophemod;02BC arrowdashdown;21E3 arrowdashleft;21E0 arrowdblright;21D2 arrowdownleft;2199 \
    arrowtabright;21E5 ascriptturned;0252 asterisksmall;FE61 betrafehebrew;FB4C bilabialclick;0298 \
    bindigurmukhi;0A02 bracerightmid;F8FD bracketleftbt;F8F0 bracketleftex;F8EF bracketlefttp;F8EE \
    brevebelowcmb;032E bulletinverse;25D8 caronbelowcmb;032C ccedillaacute;1E09 centmonospace;FFE0 \
    chieuchkorean;314A circumflexcmb;0302 clickalveolar;01C2 clubsuitblack;2663 clubsuitwhite;2667 \
    cmcubedsquare;33A4 colonmonetary;20A1 commaabovecmb;0313 commaarmenian;055D commainferior;F6E1 \
    commasuperior;F6E2 copyrightsans;F8E9 coverkgsquare;33C6 dblarrowright;21D2 dbllowlinecmb;0333 \
    dieresisacute;F6D7 dieresisgrave;F6D8 dieresistonos;0385 divisionslash;2215 ecedillabreve;1E1D \
    eighteenparen;2485 eightgujarati;0AEE eightgurmukhi;0A6E eighthangzhou;3028 eightinferior;2088 \
    eightoldstyle;F738 eightsuperior;2078 enghecyrillic;04A5 eopenreversed;025C equalsuperior;207C \
    etnahtahebrew;0591 fifteencircle;246E fifteenperiod;2496 finalpehebrew;05E3 fivemonospace;FF15 \
    fourmonospace;FF14 fourteenparen;2481 gammasuperior;02E0 gravebelowcmb;0316 greaterorless;2277 \
    guillemotleft;00AB guilsinglleft;2039 hatafqamats1b;05B3 hatafqamats28;05B3 hatafqamats34;05B3 \
    hhooksuperior;02B1 hookabovecomb;0309 horizontalbar;2015 issharbengali;09FA kafrafehebrew;FB4D \
    karoriisquare;330D khieukhkorean;314B kmcubedsquare;33A6 koppacyrillic;0481 lessmonospace;FF1C \
    lessorgreater;2276 lessoverequal;2266 llvocalicdeva;0961 lowlinedashed;FE4D maitaikhuthai;0E47 \
    mansyonsquare;3347 meetorusquare;334D minusbelowcmb;0320 mmcubedsquare;33A3 musicflatsign;266D \
    newsheqelsign;20AA ninemonospace;FF19 nineteenparen;2486 nlegrightlong;019E nuktagujarati;0ABC \
    nuktagurmukhi;0A3C ohorndotbelow;1EE3 ohungarumlaut;0151 omegacyrillic;0461 onehackarabic;0661 \
    oogonekmacron;01ED paiyannoithai;0E2F pansioskorean;317F percentarabic;066A perpendicular;22A5 \
    phieuphkorean;314D pisymbolgreek;03D6 plusmonospace;FF0B primereversed;2035 prolongedkana;30FC \
    questiongreek;037E questionsmall;F73F quotedblprime;301E quotedblright;201D quotereversed;201B \
    referencemark;203B registerserif;F6DA reversedtilde;223D revlogicalnot;2310 rhotichookmod;02DE \
    righttriangle;22BF ringhalfright;02BE rittorusquare;3351 rrvocalicdeva;0960 saraileftthai;F885 \
    schwacyrillic;04D9 segoltahebrew;0592 sevengujarati;0AED sevengurmukhi;0A6D sevenhangzhou;3027 \
    seveninferior;2087 sevenoldstyle;F737 sevensuperior;2077 shchacyrillic;0449 shindothebrew;05C1 \
    sixhackarabic;0666 sixteencircle;246F sixteenperiod;2497 subsetorequal;2286 tatweelarabic;0640 \
    tetsecyrillic;04B5 thieuthkorean;314C thirteenparen;2480 thothahanthai;0E17 threegujarati;0AE9 \
    threegurmukhi;0A69 threehangzhou;3023 threeinferior;2083 threeoldstyle;F733 threequarters;00BE \
    threesuperior;00B3 tildebelowcmb;0330 tildeoperator;223C tippigurmukhi;0A70 tonebarlowmod;02E8 \
    tonebarmidmod;02E7 trademarksans;F8EA twohackarabic;0662 uhorndotbelow;1EF1 uhungarumlaut;0171 \
    underscoredbl;2017 viramabengali;09CD ypogegrammeni;037A zeromonospace;FF10 Abrevecyrillic;04D0 \
    Abrevedotbelow;1EB6 Adieresissmall;F7E4 Ainvertedbreve;0202 Dotaccentsmall;F6F7 Edieresissmall;F7EB \
    Einvertedbreve;0206 Enhookcyrillic;04C7 Idieresisacute;1E2E Idieresissmall;F7EF Iinvertedbreve;020A \
    Kahookcyrillic;04C3 Ocenteredtilde;019F Odieresissmall;F7F6 Ohornhookabove;1EDE Oinvertedbreve;020E \
    Otildedieresis;1E4E Rinvertedbreve;0212 Rsmallinverted;0281 Tretroflexhook;01AE Udieresisacute;01D7 \
    Udieresisbelow;1E72 Udieresiscaron;01D9 Udieresisgrave;01DB Udieresissmall;F7FC Uhornhookabove;1EEC \
    Uinvertedbreve;0216 Upsilonafrican;01B1 Ushortcyrillic;040E Ydieresissmall;F7FF Yusbigcyrillic;046A \
    abrevecyrillic;04D1 abrevedotbelow;1EB7 ainfinalarabic;FECA ainvertedbreve;0203 ampersandsmall;F726 \
    angkhankhuthai;0E5A arighthalfring;1E9A arrowdashright;21E2 arrowdownright;2198 arrowdownwhite;21E9 \
    arrowheadupmod;02C4 arrowleftwhite;21E6 asmallhiragana;3041 asmallkatakana;30A1 asteriskarabic;066D \
    behfinalarabic;FE90 blackrectangle;25AC braceleftsmall;FE5B bracketrightbt;F8FB bracketrightex;F8FA \
    bracketrighttp;F8F9 bridgebelowcmb;032A bulletoperator;2219 candrabinducmb;0310 carriagereturn;21B5 \
    circlemultiply;2297 clickretroflex;01C3 colonmonospace;FF1A commamonospace;FF0C commaturnedmod;02BB \
    copyrightserif;F6D9 dadfinalarabic;FEBE dalfinalarabic;FEAA dammalowarabic;064F dammatanarabic;064C \
    dbloverlinecmb;033F dblverticalbar;2016 dialytikatonos;0385 dollarinferior;F6E3 dollaroldstyle;F724 \
    dollarsuperior;F6E4 doubleyodpatah;FB1F eighteencircle;2471 eighteenperiod;2499 eightmonospace;FF18 \
    einvertedbreve;0207 emdashvertical;FE31 endashvertical;FE32 enhookcyrillic;04C8 equalmonospace;FF1D \
    esmallhiragana;3047 esmallkatakana;30A7 evowelsigndeva;0947 exclamarmenian;055C fathalowarabic;064E \
    fathatanarabic;064B fehfinalarabic;FED2 finalkafdagesh;FB3A finalkafhebrew;05DA finalmemhebrew;05DD \
    finalnunhebrew;05DF fivehackarabic;0665 fourhackarabic;0664 fourteencircle;246D fourteenperiod;2495 \
    gaffinalarabic;FB93 glottalstopmod;02C0 gravemonospace;FF40 guillemotright;00BB guilsinglright;203A \
    haaltonearabic;06C1 hahfinalarabic;FEA2 halantgurmukhi;0A4D hamzalowarabic;0621 heartsuitblack;2665 \
    heartsuitwhite;2661 hedageshhebrew;FB34 hehfinalarabic;FEEA hypheninferior;F6E5 hyphensuperior;F6E6 \
    idieresisacute;1E2F iinvertedbreve;020B imatragurmukhi;0A3F integralbottom;2321 ismallhiragana;3043 \
    ismallkatakana;30A3 ivowelsigndeva;093F jdotlessstroke;025F jehfinalarabic;FB8B kaffinalarabic;FEDA \
    kahookcyrillic;04C4 kasratanarabic;064D khorakhangthai;0E06 lamfinalarabic;FEDE lhookretroflex;026D \
    macronbelowcmb;0331 mahapakhhebrew;05A4 maihanakatthai;0E31 meizierasquare;337E mlonglegturned;0270 \
    musicalnotedbl;266B musicsharpsign;266F nhookretroflex;0273 ninehackarabic;0669 nineteencircle;2472 \
    nineteenperiod;249A ohornhookabove;1EDF oinvertedbreve;020F onedotenleader;2024 osmallhiragana;3049 \
    osmallkatakana;30A9 otildedieresis;1E4F overlinedashed;FE49 ovowelsigndeva;094B paasentosquare;332B \
    parenleftsmall;FE59 pedageshhebrew;FB44 pehfinalarabic;FB57 periodarmenian;0589 periodcentered;00B7 \
    periodinferior;F6E7 periodsuperior;F6E8 phisymbolgreek;03D5 phosamphaothai;0E20 postalmarkface;3020 \
    propersuperset;2283 qaffinalarabic;FED6 questionarabic;061F quotesinglbase;201A radoverssquare;33AE \
    reflexsuperset;2287 rehfinalarabic;FEAE rhosymbolgreek;03F1 rinvertedbreve;0213 rlonglegturned;027A \
    sadfinalarabic;FEBA saraiileftthai;F886 saraueleftthai;F887 semicolonsmall;FE54 sevenmonospace;FF17 \
    seventeenparen;2484 slashmonospace;FF0F slongdotaccent;1E9B sofpasuqhebrew;05C3 spadesuitblack;2660 \
    spadesuitwhite;2664 squarebelowcmb;033B squaremsquared;33A1 subsetnotequal;228A tahfinalarabic;FEC2 \
    tehfinalarabic;FE96 telephoneblack;260E thirteencircle;246C thirteenperiod;2494 thophuthaothai;0E12 \
    three.superior;00B3 threemonospace;FF13 tildedoublecmb;0360 tonebarhighmod;02E6 trademarkserif;F6DB \
    tretroflexhook;0288 twentyhangzhou;5344 twodotenleader;2025 udieresisacute;01D8 udieresisbelow;1E73 \
    udieresiscaron;01DA udieresisgrave;01DC uhornhookabove;1EED uinvertedbreve;0217 umatragurmukhi;0A41 \
    underscorewavy;FE4F upperdothebrew;05C4 uptackbelowcmb;031D ushortcyrillic;045E usmallhiragana;3045 \
    usmallkatakana;30A5 uvowelsigndeva;0941 vavholamhebrew;FB4B vehfinalarabic;FB6B viramagujarati;0ACD \
    visargabengali;0983 voicedmarkkana;309B wawfinalarabic;FEEE whitetelephone;260F yehfinalarabic;FEF2 \
    yesieungkorean;3181 yusbigcyrillic;046B zahfinalarabic;FEC6 zerohackarabic;0660 zerowidthspace;200B \
    zretroflexhook;0290 Abrevehookabove;1EB2 Adieresismacron;01DE Circumflexsmall;F6F6 Iebrevecyrillic;04D6 \
    Iishortcyrillic;0419 Imacroncyrillic;04E2 Izhitsacyrillic;0474 Ldotbelowmacron;1E38 Obarredcyrillic;04E8 \
    Rdotbelowmacron;1E5C Sacutedotaccent;1E64 Scarondotaccent;1E66 Udieresismacron;01D5 Umacroncyrillic;04EE \
    Umacrondieresis;1E7A Upsilondieresis;03AB aamatragurmukhi;0A3E aavowelsigndeva;093E abrevehookabove;1EB3 \
    adieresismacron;01DF aimatragurmukhi;0A48 ainmedialarabic;FECC aivowelsigndeva;0948 aleffinalarabic;FE8E \
    aleflamedhebrew;FB4F alefpatahhebrew;FB2E anusvarabengali;0982 arrowrightheavy;279E arrowrightwhite;21E8 \
    arrowupdownbase;21A8 aumatragurmukhi;0A4C auvowelsigndeva;094C behmedialarabic;FE92 betasymbolgreek;03D0 \
    betdageshhebrew;FB31 bracerightsmall;FE5C candrabindudeva;0901 cmsquaredsquare;33A0 contourintegral;222E \
    dadmedialarabic;FEC0 dargalefthebrew;05A7 ddalfinalarabic;FB89 dollarmonospace;FF04 ecandragujarati;0A8D \
    echyiwnarmenian;0587 eematragurmukhi;0A47 eighthackarabic;0668 ekonkargurmukhi;0A74 eshreversedloop;01AA \
    exclamdownsmall;F7A1 exclammonospace;FF01 fehmedialarabic;FED4 gafmedialarabic;FB95 gammalatinsmall;0263 \
    gershayimhebrew;05F4 hahmedialarabic;FEA4 hehaltonearabic;06C1 hehmedialarabic;FEEC heiseierasquare;337B \
    hekutaarusquare;3336 hiriqwidehebrew;05B4 holamwidehebrew;05B9 hungarumlautcmb;030B hyphenmonospace;FF0D \
    ideographiczero;3007 iebrevecyrillic;04D7 iimatragurmukhi;0A40 iishortcyrillic;0439 iivowelsigndeva;0940 \
    imacroncyrillic;04E3 izhitsacyrillic;0475 jeemfinalarabic;FE9E kafdageshhebrew;FB3B kafmedialarabic;FEDC \
    kasmallkatakana;30F5 kesmallkatakana;30F6 khahfinalarabic;FEA6 kmsquaredsquare;33A2 lakkhangyaothai;0E45 \
    lammedialarabic;FEE0 ldotbelowmacron;1E39 lvocalicbengali;098C macronmonospace;FFE3 maichattawathai;0E4B \
    meemfinalarabic;FEE2 memdageshhebrew;FB3E mieumsioskorean;316F miribaarusquare;334A mmsquaredsquare;339F \
    munahlefthebrew;05A3 nieunsioskorean;3167 noonfinalarabic;FEE6 notlessnorequal;2270 numbersignsmall;FE5F \
    nundageshhebrew;FB40 obarredcyrillic;04E9 ocandragujarati;0A91 oomatragurmukhi;0A4B overlinedblwavy;FE4C \
    parenrightsmall;FE5A patahwidehebrew;05B7 pehmedialarabic;FB59 periodhalfwidth;FF61 periodmonospace;FF0E \
    pieupsioskorean;3144 qafmedialarabic;FED8 qofdageshhebrew;FB47 rdotbelowmacron;1E5D rieulsioskorean;313D \
    rrehfinalarabic;FB8D rturnedsuperior;02B4 rvocalicbengali;098B sacutedotaccent;1E65 sadmedialarabic;FEBC \
    saraueeleftthai;F888 scarondotaccent;1E67 seagullbelowcmb;033C seenfinalarabic;FEB2 segolwidehebrew;05B6 \
    semicolonarabic;061B sevenhackarabic;0667 seventeencircle;2470 seventeenperiod;2498 shevawidehebrew;05B0 \
    siluqlefthebrew;05BD sioscieuckorean;317E siosnieunkorean;317B siosparenkorean;3206 siospieupkorean;317D \
    spacehackarabic;0020 squarekmcapital;33CE ssangsioskorean;3146 supersetorequal;2287 syouwaerasquare;337C \
    tahmedialarabic;FEC4 tavdageshhebrew;FB4A tehmedialarabic;FE98 tetdageshhebrew;FB38 tevirlefthebrew;059B \
    thalfinalarabic;FEAC thanthakhatthai;0E4C thehfinalarabic;FE9A threehackarabic;0663 tildeoverlaycmb;0334 \
    tserewidehebrew;05B5 ttehfinalarabic;FB67 tusmallhiragana;3063 tusmallkatakana;30C3 udieresismacron;01D6 \
    umacroncyrillic;04EF umacrondieresis;1E7B upsilondieresis;03CB uumatragurmukhi;0A42 uuvowelsigndeva;0942 \
    vavdageshhebrew;FB35 vehmedialarabic;FB6D verticallinemod;02C8 visargagujarati;0A83 wasmallhiragana;308E \
    wasmallkatakana;30EE yasmallhiragana;3083 yasmallkatakana;30E3 yehbarreearabic;06D2 yehmedialarabic;FEF4 \
    yoddageshhebrew;FB39 yosmallhiragana;3087 yosmallkatakana;30E7 yusmallhiragana;3085 yusmallkatakana;30E5 \
    zahmedialarabic;FEC8 zainfinalarabic;FEB0 zerowidthjoiner;FEFF Acircumflexacute;1EA4 \
    Acircumflexgrave;1EA6 Acircumflexsmall;F7E2 Acircumflextilde;1EAA Dcircumflexbelow;1E12 \
    Ecircumflexacute;1EBE Ecircumflexbelow;1E18 Ecircumflexgrave;1EC0 Ecircumflexsmall;F7EA \
    Ecircumflextilde;1EC4 Hardsigncyrillic;042A Icircumflexsmall;F7EE Kastrokecyrillic;049E \
    Lcircumflexbelow;1E3C Ncircumflexbelow;1E4A Ocircumflexacute;1ED0 Ocircumflexgrave;1ED2 \
    Ocircumflexsmall;F7F4 Ocircumflextilde;1ED6 Softsigncyrillic;042C Tcircumflexbelow;1E70 \
    Ucircumflexbelow;1E76 Ucircumflexsmall;F7FB Zhebrevecyrillic;04C1 acircumflexacute;1EA5 \
    acircumflexgrave;1EA7 acircumflextilde;1EAB aininitialarabic;FECB alefdageshhebrew;FB30 \
    alefqamatshebrew;FB2F anglebracketleft;3008 anusvaragujarati;0A82 arrowheaddownmod;02C5 \
    arrowheadleftmod;02C2 ayinaltonehebrew;FB20 behinitialarabic;FE91 blacksmallsquare;25AA \
    blacksmilingface;263B breveinvertedcmb;0311 cieucparenkorean;3208 circlepostalmark;3036 \
    commareversedmod;02BD dadinitialarabic;FEBF dcircumflexbelow;1E13 diamondsuitwhite;2662 \
    dieresisbelowcmb;0324 downtackbelowcmb;031E ecircumflexacute;1EBF ecircumflexbelow;1E19 \
    ecircumflexgrave;1EC1 ecircumflextilde;1EC5 eighthnotebeamed;266B ellipsisvertical;22EE \
    eshsquatreversed;0285 fehinitialarabic;FED3 finaltsadihebrew;05E5 firsttonechinese;02C9 \
    gafinitialarabic;FB94 ghainfinalarabic;FECE greatermonospace;FF1E greateroverequal;2267 \
    hahinitialarabic;FEA3 hardsigncyrillic;044A hatafpatahhebrew;05B2 hatafsegolhebrew;05B1 \
    hehinitialarabic;FEEB hieuhparenkorean;320D ideographicclose;3006 ideographiccomma;3001 \
    ideographicspace;3000 ieungparenkorean;3207 jeemmedialarabic;FEA0 kafinitialarabic;FEDB \
    kappasymbolgreek;03F0 kastrokecyrillic;049F khahmedialarabic;FEA8 kiroguramusquare;3315 \
    kiyeoksioskorean;3133 laminitialarabic;FEDF lcircumflexbelow;1E3D lefttackbelowcmb;0318 \
    lessorequivalent;2272 llvocalicbengali;09E1 maieklowleftthai;F88C meemmedialarabic;FEE4 \
    merkhalefthebrew;05A5 mieumparenkorean;3204 mieumpieupkorean;316E ncircumflexbelow;1E4B \
    nieuncieuckorean;3135 nieunhieuhkorean;3136 nieunparenkorean;3201 nikhahitleftthai;F899 \
    nonbreakingspace;00A0 noonghunnaarabic;06BA noonmedialarabic;FEE8 numeralsigngreek;0374 \
    ocircumflexacute;1ED1 ocircumflexgrave;1ED3 ocircumflextilde;1ED7 omegalatinclosed;0277 \
    palochkacyrillic;04C0 pehinitialarabic;FB58 percentmonospace;FF05 pieupcieuckorean;3176 \
    pieupparenkorean;3205 qafinitialarabic;FED7 qamatswidehebrew;05B8 qarneyparahebrew;059F \
    qubutswidehebrew;05BB questionarmenian;055E reshdageshhebrew;FB48 rieulhieuhkorean;3140 \
    rieulmieumkorean;313B rieulparenkorean;3203 rieulpieupkorean;313C rrvocalicbengali;09E0 \
    rupeemarkbengali;09F2 rupeesignbengali;09F3 rvocalicgujarati;0A8B sadinitialarabic;FEBB \
    seenmedialarabic;FEB4 shalshelethebrew;0593 sheenfinalarabic;FEB6 shindageshhebrew;FB49 \
    shindageshsindot;FB2D shinsindothebrew;FB2B siosaparenkorean;3214 sioscirclekorean;3266 \
    sioskiyeokkorean;317A siostikeutkorean;317C softsigncyrillic;044C ssangcieuckorean;3149 \
    ssanghieuhkorean;3185 ssangieungkorean;3180 ssangnieunkorean;3165 ssangpieupkorean;3143 \
    supersetnotequal;228B tahinitialarabic;FEC3 taisyouerasquare;337D tchehfinalarabic;FB7B \
    tcircumflexbelow;1E71 tehinitialarabic;FE97 tehmarbutaarabic;0629 thehmedialarabic;FE9C \
    thetasymbolgreek;03D1 thousandcyrillic;0482 tildeverticalcmb;033E tipehalefthebrew;0596 \
    titlocyrilliccmb;0483 ttehmedialarabic;FB69 ucircumflexbelow;1E77 vehinitialarabic;FB6C \
    whitesmallsquare;25AB whitesmilingface;263A yehinitialarabic;FEF3 zahinitialarabic;FEC7 \
    zaqefgadolhebrew;0595 zaqefqatanhebrew;0594 zhebrevecyrillic;04C2 Adieresiscyrillic;04D2 \
    Eiotifiedcyrillic;0464 Ereversedcyrillic;042D Ghestrokecyrillic;0492 Gheupturncyrillic;0490 \
    Hungarumlautsmall;F6F8 Idieresiscyrillic;04E4 Kabashkircyrillic;04A0 Odieresiscyrillic;04E6 \
    Udieresiscyrillic;04F0 Upsilonhooksymbol;03D2 Ustraightcyrillic;04AE Yuslittlecyrillic;0466 \
    adieresiscyrillic;04D3 alefmaksuraarabic;0649 anglebracketright;3009 arrowheadrightmod;02C3 \
    arrowupleftofdown;21C5 asteriskmonospace;FF0A braceleftvertical;FE37 cieucaparenkorean;3216 \
    cieuccirclekorean;3268 cieucuparenkorean;321C cornerbracketleft;300C corporationsquare;337F \
    daletdageshhebrew;FB33 dialytikatonoscmb;0344 eiotifiedcyrillic;0465 eopenreversedhook;025D \
    ereversedcyrillic;044D etnahtalefthebrew;0591 evowelsignbengali;09C7 fourthtonechinese;02CB \
    ghainmedialarabic;FED0 ghestrokecyrillic;0493 gheupturncyrillic;0491 gimeldageshhebrew;FB32 \
    glottalstopstroke;02A1 harpoonleftbarbup;21BC hatafqamatshebrew;05B3 hieuhaparenkorean;321B \
    hieuhcirclekorean;326D hiriqnarrowhebrew;05B4 holamnarrowhebrew;05B9 ideographicperiod;3002 \
    idieresiscyrillic;04E5 ieungaparenkorean;3215 ieungcirclekorean;3267 iotadieresistonos;0390 \
    iterationhiragana;309D iterationkatakana;30FD ivowelsignbengali;09BF jeeminitialarabic;FE9F \
    kabashkircyrillic;04A1 kashidaautoarabic;0640 khahinitialarabic;FEA7 kiromeetorusquare;3316 \
    kiyeokparenkorean;3200 lameddageshhebrew;FB3C leftangleabovecmb;031A lowlinecenterline;FE4E \
    maieklowrightthai;F88B maitaikhuleftthai;F889 maitholowleftthai;F88F maitrilowleftthai;F892 \
    meeminitialarabic;FEE3 mieumaparenkorean;3212 mieumcirclekorean;3264 nieunaparenkorean;320F \
    nieuncirclekorean;3261 nieuntikeutkorean;3166 nooninitialarabic;FEE7 notgreaternorless;2279 \
    odieresiscyrillic;04E7 ovowelsignbengali;09CB parenleftinferior;208D parenleftsuperior;207D \
    parenleftvertical;FE35 patahnarrowhebrew;05B7 pieupaparenkorean;3213 pieupcirclekorean;3265 \
    pieupkiyeokkorean;3172 pieuptikeutkorean;3173 qamatsqatanhebrew;05B8 questiondownsmall;F7BF \
    questionmonospace;FF1F quotedblmonospace;FF02 quoteleftreversed;201B rfishhookreversed;027F \
    rieulaparenkorean;3211 rieulcirclekorean;3263 rieulkiyeokkorean;313A rieultikeutkorean;316A \
    righttackbelowcmb;0319 rrvocalicgujarati;0AE0 saraaimaimuanthai;0E43 secondtonechinese;02CA \
    seeninitialarabic;FEB3 segolnarrowhebrew;05B6 shaddadammaarabic;FC61 shaddafathaarabic;FC60 \
    shaddakasraarabic;FC62 sheenmedialarabic;FEB8 shevanarrowhebrew;05B0 shindageshshindot;FB2C \
    shinshindothebrew;FB2A siosacirclekorean;3274 ssangkiyeokkorean;3132 ssangtikeutkorean;3138 \
    sterlingmonospace;FFE1 tchehmedialarabic;FB7D thehinitialarabic;FE9B thonangmonthothai;0E11 \
    tikeutparenkorean;3202 tsadidageshhebrew;FB46 tserenarrowhebrew;05B5 ttehinitialarabic;FB68 \
    udieresiscyrillic;04F1 ustraightcyrillic;04AF uvowelsignbengali;09C1 yeorinhieuhkorean;3186 \
    yodyodpatahhebrew;FB1F yuslittlecyrillic;0467 zayindageshhebrew;FB36 Omegaroundcyrillic;047A \
    Omegatitlocyrillic;047C Sdotbelowdotaccent;1E68 Zedieresiscyrillic;04DE aavowelsignbengali;09BE \
    aivowelsignbengali;09C8 akatakanahalfwidth;FF71 ampersandmonospace;FF06 apostrophearmenian;055A \
    approxequalorimage;2252 approximatelyequal;2245 arrowleftdblstroke;21CD arrowleftoverright;21C6 \
    arrowrightoverleft;21C4 auvowelsignbengali;09CC backslashmonospace;FF3C behnoonfinalarabic;FC6D \
    braceleftmonospace;FF5B bracerightvertical;FE38 candrabindubengali;0981 chieuchparenkorean;3209 \
    cieucacirclekorean;3276 circumflexbelowcmb;032D colontriangularmod;02D0 commaaboverightcmb;0315 \
    cornerbracketright;300D dotlessjstrokehook;0284 ekatakanahalfwidth;FF74 etnahtafoukhhebrew;0591 \
    evowelsigngujarati;0AC7 geometricallyequal;2251 gereshaccenthebrew;059C gereshmuqdamhebrew;059D \
    ghaininitialarabic;FECF greaterequalorless;22DB harpoonrightbarbup;21C0 hieuhacirclekorean;327B \
    hiriqquarterhebrew;05B4 holamquarterhebrew;05B9 ideographsuncircle;3290 ieungacirclekorean;3275 \
    iivowelsignbengali;09C0 ikatakanahalfwidth;FF72 ivowelsigngujarati;0ABF khieukhparenkorean;320A \
    kiyeokaparenkorean;320E kiyeokcirclekorean;3260 lamaleffinalarabic;FEFC lessequalorgreater;22DA \
    logicalnotreversed;2310 mahapakhlefthebrew;05A4 maiekupperleftthai;F88A maihanakatleftthai;F884 \
    maitholowrightthai;F88E maitrilowrightthai;F891 masoracirclehebrew;05AF merkhakefulahebrew;05A6 \
    mieumacirclekorean;3272 mieumpansioskorean;3170 nieunacirclekorean;326F nieunpansioskorean;3168 \
    nkatakanahalfwidth;FF9D notgreaternorequal;2271 okatakanahalfwidth;FF75 omegaroundcyrillic;047B \
    omegatitlocyrillic;047D overlinecenterline;FE4A ovowelsigngujarati;0ACB parenleftmonospace;FF08 \
    parenrightinferior;208E parenrightsuperior;207E parenrightvertical;FE36 patahquarterhebrew;05B7 \
    phieuphparenkorean;320C pieupacirclekorean;3273 pieupthieuthkorean;3177 qamatsnarrowhebrew;05B8 \
    qubutsnarrowhebrew;05BB reviamugrashhebrew;0597 rieulacirclekorean;3271 rieulpansioskorean;316C \
    rieulphieuphkorean;313F rieulthieuthkorean;313E samekhdageshhebrew;FB41 saraaimaimalaithai;0E44 \
    sdotbelowdotaccent;1E69 segolquarterhebrew;05B6 semicolonmonospace;FF1B semivoicedmarkkana;309C \
    sheeninitialarabic;FEB7 shevaquarterhebrew;05B0 squareverticalfill;25A5 tchehinitialarabic;FB7C \
    tehnoonfinalarabic;FC73 thieuthparenkorean;320B tikeutaparenkorean;3210 tikeutcirclekorean;3262 \
    tonebarextralowmod;02E9 tserequarterhebrew;05B5 ukatakanahalfwidth;FF73 underscorevertical;FE33 \
    uuvowelsignbengali;09C2 uvowelsigngujarati;0AC1 verticallinelowmod;02CC whitecircleinverse;25D9 \
    yehnoonfinalarabic;FC94 yerahbenyomohebrew;05AA yesieungsioskorean;3182 zedieresiscyrillic;04DF \
    zerowidthnonjoiner;200C Acircumflexdotbelow;1EAC Chedieresiscyrillic;04F4 Ecircumflexdotbelow;1EC6 \
    Endescendercyrillic;04A2 Esdescendercyrillic;04AA Haabkhasiancyrillic;04A8 Hadescendercyrillic;04B2 \
    Kadescendercyrillic;049A Ocircumflexdotbelow;1ED8 Tedescendercyrillic;04AC Zedescendercyrillic;0498 \
    Zhedieresiscyrillic;04DC aavowelsigngujarati;0ABE acircumflexdotbelow;1EAD aivowelsigngujarati;0AC8 \
    arrowrightdblstroke;21CF asciitildemonospace;FF5E asymptoticallyequal;2243 aulengthmarkbengali;09D7 \
    auvowelsigngujarati;0ACC bracerightmonospace;FF5D candrabindugujarati;0A81 chedieresiscyrillic;04F5 \
    chieuchaparenkorean;3217 chieuchcirclekorean;3269 commaturnedabovecmb;0312 dblanglebracketleft;300A \
    ecircumflexdotbelow;1EC7 endescendercyrillic;04A3 eopenreversedclosed;025E esdescendercyrillic;04AB \
    eshortvowelsigndeva;0946 glottalstopinverted;0296 glottalstopreversed;0295 greaterorequivalent;2273 \
    haabkhasiancyrillic;04A9 hadescendercyrillic;04B3 hakatakanahalfwidth;FF8A hekatakanahalfwidth;FF8D \
    hikatakanahalfwidth;FF8B hokatakanahalfwidth;FF8E hukatakanahalfwidth;FF8C ideographfirecircle;328B \
    ideographicsunparen;3230 ideographmooncircle;328A ideographnamecircle;3294 ideographwoodcircle;328D \
    iivowelsigngujarati;0AC0 kadescendercyrillic;049B kakatakanahalfwidth;FF76 kapyeounmieumkorean;3171 \
    kapyeounpieupkorean;3178 kekatakanahalfwidth;FF79 khieukhaparenkorean;3218 khieukhcirclekorean;326A \
    kikatakanahalfwidth;FF77 kiyeokacirclekorean;326E kokatakanahalfwidth;FF7A kukatakanahalfwidth;FF78 \
    lamhahinitialarabic;FCCA maithoupperleftthai;F88D maitriupperleftthai;F890 makatakanahalfwidth;FF8F \
    mekatakanahalfwidth;FF92 mikatakanahalfwidth;FF90 mokatakanahalfwidth;FF93 moverssquaredsquare;33A8 \
    mukatakanahalfwidth;FF91 nakatakanahalfwidth;FF85 nekatakanahalfwidth;FF88 nikatakanahalfwidth;FF86 \
    nokatakanahalfwidth;FF89 noonnoonfinalarabic;FC8D nukatakanahalfwidth;FF87 numbersignmonospace;FF03 \
    ocircumflexdotbelow;1ED9 oneideographicparen;3220 onenumeratorbengali;09F4 oshortvowelsigndeva;094A \
    parenrightmonospace;FF09 pefinaldageshhebrew;FB43 perispomenigreekcmb;0342 phieuphaparenkorean;321A \
    phieuphcirclekorean;326C qamatsquarterhebrew;05B8 qubutsquarterhebrew;05BB rakatakanahalfwidth;FF97 \
    rekatakanahalfwidth;FF9A rhookturnedsuperior;02B5 rikatakanahalfwidth;FF98 rokatakanahalfwidth;FF9B \
    rukatakanahalfwidth;FF99 sakatakanahalfwidth;FF7B sekatakanahalfwidth;FF7E sikatakanahalfwidth;FF7C \
    sixideographicparen;3225 sokatakanahalfwidth;FF7F sukatakanahalfwidth;FF7D takatakanahalfwidth;FF80 \
    tedescendercyrillic;04AD tehhahinitialarabic;FCA2 tekatakanahalfwidth;FF83 telishagedolahebrew;05A0 \
    telishaqetanahebrew;05A9 tenideographicparen;3229 thieuthaparenkorean;3219 thieuthcirclekorean;326B \
    threequartersemdash;F6DE tikatakanahalfwidth;FF81 tikeutacirclekorean;3270 tokatakanahalfwidth;FF84 \
    tonebarextrahighmod;02E5 tukatakanahalfwidth;FF82 twoideographicparen;3221 twonumeratorbengali;09F5 \
    underscoremonospace;FF3F uuvowelsigngujarati;0AC2 wakatakanahalfwidth;FF9C wawhamzaabovearabic;0624 \
    wokatakanahalfwidth;FF66 yakatakanahalfwidth;FF94 yehhamzaabovearabic;0626 yokatakanahalfwidth;FF96 \
    yukatakanahalfwidth;FF95 zedescendercyrillic;0499 zhedieresiscyrillic;04DD Acircumflexhookabove;1EA8 \
    Cheabkhasiancyrillic;04BC Chedescendercyrillic;04B6 Dzeabkhasiancyrillic;04E0 Ecircumflexhookabove;1EC2 \
    Ocircumflexhookabove;1ED4 Pemiddlehookcyrillic;04A6 Yerudieresiscyrillic;04F8 Zhedescendercyrillic;0496 \
    abbreviationsigndeva;0970 acircumflexhookabove;1EA9 alefhamzaabovearabic;0623 alefhamzabelowarabic;0625 \
    alefmaddaabovearabic;0622 asciicircummonospace;FF3E asteriskaltonearabic;066D beamedsixteenthnotes;266C \
    behmeeminitialarabic;FC9F bracketleftmonospace;FF3B cheabkhasiancyrillic;04BD chedescendercyrillic;04B7 \
    chieuchacirclekorean;3277 dammatanaltonearabic;064C dblanglebracketright;300B doubleyodpatahhebrew;FB1F \
    dzeabkhasiancyrillic;04E1 ecandravowelsigndeva;0945 ecircumflexhookabove;1EC3 emphasismarkarmenian;055B \
    finalkafdageshhebrew;FB3A fiveideographicparen;3224 fourideographicparen;3223 fournumeratorbengali;09F7 \
    hatafpatahwidehebrew;05B2 hatafsegolwidehebrew;05B1 hehfinalaltonearabic;FBA7 hehfinalalttwoarabic;FEEA \
    ideographearthcircle;328F ideographiccallparen;323A ideographiccommaleft;FF64 ideographicfireparen;322B \
    ideographichaveparen;3232 ideographiclowcircle;32A6 ideographicmoonparen;322A ideographicnameparen;3234 \
    ideographicselfparen;3242 ideographicwoodparen;322D ideographmetalcircle;328E ideographwatercircle;328C \
    khieukhacirclekorean;3278 koreanstandardsymbol;327F lamjeeminitialarabic;FCC9 lamkhahinitialarabic;FCCB \
    lammeeminitialarabic;FCCC nineideographicparen;3228 ocandravowelsigndeva;0949 ocircumflexhookabove;1ED5 \
    pemiddlehookcyrillic;04A7 phieuphacirclekorean;327A pointingindexupwhite;261D quotesinglemonospace;FF07 \
    rieulpieupsioskorean;316B ringhalfleftarmenian;0559 ringhalfleftbelowcmb;031C ringhalfleftcentered;02D3 \
    shaddadammatanarabic;FC5E shaddakasratanarabic;FC5F squarehorizontalfill;25A4 strokelongoverlaycmb;0336 \
    tehhahisolatedarabic;FC0C tehjeeminitialarabic;FCA1 tehmeeminitialarabic;FCA4 thieuthacirclekorean;3279 \
    twodotleadervertical;FE30 upsilondieresistonos;03B0 verticallineabovecmb;030D verticallinebelowcmb;0329 \
    yehbarreefinalarabic;FBAF yehmeeminitialarabic;FCDD yerudieresiscyrillic;04F9 zhedescendercyrillic;0497 \
    Chekhakassiancyrillic;04CB Ghemiddlehookcyrillic;0494 Schwadieresiscyrillic;04DA \
    Uhungarumlautcyrillic;04F2 behmeemisolatedarabic;FC08 bracketrightmonospace;FF3D \
    breveinvertedbelowcmb;032F chekhakassiancyrillic;04CC commareversedabovecmb;0314 \
    eightideographicparen;3227 gershayimaccenthebrew;059E ghemiddlehookcyrillic;0495 \
    glottalinvertedstroke;01BE hatafqamatswidehebrew;05B3 hehmedialaltonearabic;FBA9 \
    hookretroflexbelowcmb;0322 ideographicearthparen;322F ideographichighcircle;32A4 \
    ideographiclaborparen;3238 ideographicleftcircle;32A7 ideographicmetalparen;322E \
    ideographicreachparen;3243 ideographicstockparen;3231 ideographicstudyparen;323B \
    ideographicwaterparen;322C kapyeounphieuphkorean;3184 lamalefisolatedarabic;FEFB \
    lvocalicvowelsigndeva;0962 meemmeeminitialarabic;FCD1 noonghunnafinalarabic;FB9F \
    noonjeeminitialarabic;FCD2 noonmeeminitialarabic;FCD5 numeralsignlowergreek;0375 \
    parenleftaltonearabic;FD3E pieupsioskiyeokkorean;3174 pieupsiostikeutkorean;3175 \
    qamatsqatanwidehebrew;05B8 quotedblprimereversed;301D radoverssquaredsquare;33AF \
    rieulkiyeoksioskorean;3169 ringhalfrightbelowcmb;0339 ringhalfrightcentered;02D2 \
    rvocalicvowelsigndeva;0943 schwadieresiscyrillic;04DB sevenideographicparen;3226 \
    soliduslongoverlaycmb;0338 strokeshortoverlaycmb;0335 tehjeemisolatedarabic;FC0B \
    tehmarbutafinalarabic;FE94 tehmeemisolatedarabic;FC0E threeideographicparen;3222 \
    threenumeratorbengali;09F6 uhungarumlautcyrillic;04F3 yehmeemisolatedarabic;FC58 \
    yesieungpansioskorean;3183 ypogegrammenigreekcmb;0345 Rsmallinvertedsuperior;02B6 \
    Yusbigiotifiedcyrillic;046C alefmaksurafinalarabic;FEF0 blacklowerlefttriangle;25E3 \
    blackupperlefttriangle;25E4 breveinverteddoublecmb;0361 bridgeinvertedbelowcmb;033A \
    colontriangularhalfmod;02D1 decimalseparatorarabic;066B etnahtafoukhlefthebrew;0591 \
    glottalstopreversedmod;02C1 hatafpatahnarrowhebrew;05B2 hatafsegolnarrowhebrew;05B1 \
    hehinitialaltonearabic;FBA8 ideographiclaborcircle;3298 ideographicprintcircle;329E \
    ideographicrightcircle;32A8 llvocalicvowelsigndeva;0963 maichattawalowleftthai;F895 \
    meemmeemisolatedarabic;FC48 merkhakefulalefthebrew;05A6 noonjeemisolatedarabic;FC4B \
    noonmeemisolatedarabic;FC4E parenrightaltonearabic;FD3F pointingindexdownwhite;261F \
    pointingindexleftwhite;261C ralowerdiagonalbengali;09F1 rieulyeorinhieuhkorean;316D \
    rrvocalicvowelsigndeva;0944 shindageshsindothebrew;FB2D sigmalunatesymbolgreek;03F2 \
    solidusshortoverlaycmb;0337 thanthakhatlowleftthai;F898 wavyunderscorevertical;FE34 \
    whitecornerbracketleft;300E yerahbenyomolefthebrew;05AA yusbigiotifiedcyrillic;046D \
    Izhitsadblgravecyrillic;0476 Obarreddieresiscyrillic;04EA Ustraightstrokecyrillic;04B0 \
    alefmaksuramedialarabic;FEF4 asmallkatakanahalfwidth;FF67 blacklowerrighttriangle;25E2 \
    blackupperrighttriangle;25E5 blackuppointingtriangle;25B2 circlewithlefthalfblack;25D0 \
    dblarchinvertedbelowcmb;032B dblverticallineabovecmb;030E decimalseparatorpersian;066B \
    esmallkatakanahalfwidth;FF6A hatafpatahquarterhebrew;05B2 hatafqamatsnarrowhebrew;05B3 \
    hatafsegolquarterhebrew;05B1 hookpalatalizedbelowcmb;0321 ideographiccentrecircle;32A5 \
    ideographicsecretcircle;3299 ideographicsocietyparen;3233 ideographicspecialparen;3235 \
    ismallkatakanahalfwidth;FF68 izhitsadblgravecyrillic;0477 lamlamhehisolatedarabic;FDF2 \
    lammeemhahinitialarabic;FD88 maichattawalowrightthai;F894 obarreddieresiscyrillic;04EB \
    osmallkatakanahalfwidth;FF6B pointingindexrightwhite;261E qamatsqatannarrowhebrew;05B8 \
    ramiddlediagonalbengali;09F0 shindageshshindothebrew;FB2C thanthakhatlowrightthai;F897 \
    usmallkatakanahalfwidth;FF69 ustraightstrokecyrillic;04B1 voicediterationhiragana;309E \
    voicediterationkatakana;30FE voicedmarkkanahalfwidth;FF9E whitecornerbracketright;300F \
    whiteuppointingtriangle;25B3 yehthreedotsbelowarabic;06D1 Kaverticalstrokecyrillic;049C \
    abbreviationmarkarmenian;055F alefmaksurainitialarabic;FEF3 anglebracketleftvertical;FE3F \
    blackleftpointingpointer;25C4 circlewithrighthalfblack;25D1 dasiapneumatacyrilliccmb;0485 \
    ecandravowelsigngujarati;0AC5 hatafqamatsquarterhebrew;05B3 hehhamzaabovefinalarabic;FBA5 \
    ideographicallianceparen;323F ideographiccorrectcircle;32A3 ideographicfestivalparen;3240 \
    ideographiciterationmark;3005 ideographicresourceparen;323E kapyeounssangpieupkorean;3179 \
    kaverticalstrokecyrillic;049D lvocalicvowelsignbengali;09E2 maichattawaupperleftthai;F893 \
    ocandravowelsigngujarati;0AC9 psilipneumatacyrilliccmb;0486 qamatsqatanquarterhebrew;05B8 \
    rvocalicvowelsignbengali;09C3 thanthakhatupperleftthai;F896 thousandsseparatorarabic;066C \
    tortoiseshellbracketleft;3014 tusmallkatakanahalfwidth;FF6F wawhamzaabovefinalarabic;FE86 \
    yasmallkatakanahalfwidth;FF6C yehhamzaabovefinalarabic;FE8A yosmallkatakanahalfwidth;FF6E \
    yusmallkatakanahalfwidth;FF6D Cheverticalstrokecyrillic;04B8 Yuslittleiotifiedcyrillic;0468 \
    alefhamzaabovefinalarabic;FE84 alefhamzabelowfinalarabic;FE88 alefmaddaabovefinalarabic;FE82 \
    anglebracketrightvertical;FE40 blackdownpointingtriangle;25BC blackleftpointingtriangle;25C0 \
    blackrightpointingpointer;25BA cheverticalstrokecyrillic;04B9 cornerbracketleftvertical;FE41 \
    glottalstopstrokereversed;02A2 ideographicfinancialparen;3236 ideographicmedicinecircle;32A9 \
    ideographicrepresentparen;3239 ideographicsuperviseparen;323C imageorapproximatelyequal;2253 \
    llvocalicvowelsignbengali;09E3 onecircleinversesansserif;278A palatalizationcyrilliccmb;0484 \
    rrvocalicvowelsignbengali;09C4 rvocalicvowelsigngujarati;0AC3 sixcircleinversesansserif;278F \
    squarewhitewithsmallblack;25A3 thousandsseparatorpersian;066C tortoiseshellbracketright;3015 \
    twocircleinversesansserif;278B whitedownpointingtriangle;25BD whiteleftpointingtriangle;25C1 \
    yehhamzaabovemedialarabic;FE8C yuslittleiotifiedcyrillic;0469 blacklenticularbracketleft;3010 \
    blackrightpointingtriangle;25B6 cornerbracketlefthalfwidth;FF62 cornerbracketrightvertical;FE42 \
    fivecircleinversesansserif;278E fourcircleinversesansserif;278D ideographicenterpriseparen;323D \
    ideographicexcellentcircle;329D ideographicfinancialcircle;3296 middledotkatakanahalfwidth;FF65 \
    ninecircleinversesansserif;2792 rrvocalicvowelsigngujarati;0AC4 whitelenticularbracketleft;3016 \
    whiterightpointingtriangle;25B7 yehhamzaaboveinitialarabic;FE8B Upsilonacutehooksymbolgreek;03D3 \
    blacklenticularbracketright;3011 cornerbracketrighthalfwidth;FF63 dblanglebracketleftvertical;FE3D \
    eightcircleinversesansserif;2791 glottalstopreversedsuperior;02E4 hehhamzaaboveisolatedarabic;FBA4 \
    semivoicedmarkkanahalfwidth;FF9F sevencircleinversesansserif;2790 threecircleinversesansserif;278C \
    whitelenticularbracketright;3017 blackuppointingsmalltriangle;25B4 dblanglebracketrightvertical;FE3E \
    katahiraprolongmarkhalfwidth;FF70 lamalefhamzaabovefinalarabic;FEF8 lamalefhamzabelowfinalarabic;FEFA \
    lamalefmaddaabovefinalarabic;FEF6 squarediagonalcrosshatchfill;25A9 whiteuppointingsmalltriangle;25B5 \
    Chedescenderabkhasiancyrillic;04BE chedescenderabkhasiancyrillic;04BF tortoiseshellbracketleftsmall;FE5D \
    whitetortoiseshellbracketleft;3018 Upsilondieresishooksymbolgreek;03D4 \
    ideographiccongratulationparen;3237 kashidaautonosidebearingarabic;0640 \
    squareorthogonalcrosshatchfill;25A6 tortoiseshellbracketrightsmall;FE5E \
    whitecornerbracketleftvertical;FE43 whitedownpointingsmalltriangle;25BF \
    whiteleftpointingsmalltriangle;25C3 whitetortoiseshellbracketright;3019 \
    lamalefhamzaaboveisolatedarabic;FEF7 lamalefhamzabelowisolatedarabic;FEF9 \
    lamalefmaddaaboveisolatedarabic;FEF5 sallallahoualayhewasallamarabic;FDFA \
    squareupperlefttolowerrightfill;25A7 squareupperrighttolowerleftfill;25A8 \
    whitecornerbracketrightvertical;FE44 whiterightpointingsmalltriangle;25B9 \
    tortoiseshellbracketleftvertical;FE39 sixteencurrencydenominatorbengali;09F9 \
    tortoiseshellbracketrightvertical;FE3A blacklenticularbracketleftvertical;FE3B \
    blacklenticularbracketrightvertical;FE3C denominatorminusonenumeratorbengali;09F8 \
    whitediamondcontainingblacksmalldiamond;25C8 ";
