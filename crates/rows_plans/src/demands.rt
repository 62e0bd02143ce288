//! Texts of a shop and of a ward: rules, forecasts, and demands.

/// Rules with the codes of the shop.
pub const SHOP_RULES: &str = "periods 12\nwork t c s\nidle . m\nstart Day\nrule Day 0 = 't'\n";

/// The forecast of the shop, by hours.
pub const SHOP_FORECAST: &str =
    "time,t,t least,c,s,s most\n9:00,1,1,0,1,1\n10:00,1,1,0,1,1\n11:00,1,1,1,1,1\n\
    12:00,1,1,1,0,1\n13:00,1,1,1,0,1\n14:00,1,1,0,1,1\n15:00,1,1,0,1,1\n16:00,2,1,0,0,1\n\
    17:00,2,1,1,0,1\n18:00,2,1,1,0,1\n19:00,1,1,1,0,1\n20:00,1,1,0,0,1\n";

/// The demand of the shop, with units an hour.
pub const SHOP: &str =
    "heads 2 4\nneed t 6000 500 1 1 1 1 1 1 1 2 2 2 1 1\nleast t 1 1 1 1 1 1 1 1 1 1 1 1\n\
    need c 4000 500 0 0 1 1 1 0 0 0 1 1 1 0\nneed s 2500 500 1 1 1 0 0 1 1 0 0 0 0 0\n\
    most s 1 1 1 1 1 1 1 1 1 1 1 1\n";

/// Rules with the codes and the names of the ward, in another order.
pub const WARD_RULES: &str =
    "periods 50\nwork a n d\nidle i . h m\nstart Day\nrule Day 0 = Aide Nurse\n\
    rule Aide 0 = 'a'\nrule Nurse 0 = 'n'\n";

/// The forecast of the ward, by half-hours.
pub const WARD_FORECAST: &str =
    "time,n,n least,d,a\n6:00,1,0,0,0\n6:30,2,1,0,0\n7:00,3,1,0,1\n7:30,3,1,0,1\n8:00,3,1,0,1\n\
    8:30,3,1,0,1\n9:00,3,1,0,1\n9:30,3,1,0,1\n10:00,3,1,1,1\n10:30,3,1,1,1\n11:00,3,1,1,1\n\
    11:30,3,1,1,1\n12:00,3,1,1,0\n12:30,3,1,1,0\n13:00,2,1,1,0\n13:30,2,1,1,0\n14:00,2,1,1,0\n\
    14:30,2,1,1,0\n15:00,2,1,1,0\n15:30,2,1,1,0\n16:00,2,1,1,1\n16:30,2,1,1,1\n17:00,2,1,1,1\n\
    17:30,2,1,1,1\n18:00,2,1,1,1\n18:30,2,1,1,1\n19:00,2,1,1,1\n19:30,2,1,1,1\n20:00,2,1,0,0\n\
    20:30,2,1,0,0\n21:00,2,1,0,0\n21:30,2,1,0,0\n22:00,1,1,0,0\n22:30,1,1,0,0\n23:00,1,1,0,0\n\
    23:30,1,1,0,0\n0:00,1,1,0,0\n0:30,1,1,0,0\n1:00,1,1,0,0\n1:30,1,1,0,0\n2:00,1,1,0,0\n\
    2:30,1,1,0,0\n3:00,1,1,0,0\n3:30,1,1,0,0\n4:00,1,1,0,0\n4:30,1,1,0,0\n5:00,1,1,0,0\n\
    5:30,1,1,0,0\n6:00,1,1,0,0\n6:30,0,0,0,0\n";

/// The demand of the ward, with units a half-hour.
pub const WARD: &str = "group Nurse 5 9\ngroup Aide 1 4\n\
    need n 4500 250 1 2 3 3 3 3 3 3 3 3 3 3 3 3 2 2 2 2 2 2 2 2 2 2 2 2 2 2 2 2 2 2 1 1 1 1 1 \
    1 1 1 1 1 1 1 1 1 1 1 1 0\n\
    least n 0 1 1 1 1 1 1 1 1 1 1 1 1 1 1 1 1 1 1 1 1 1 1 1 1 1 1 1 1 1 1 1 1 1 1 1 1 1 1 1 1 \
    1 1 1 1 1 1 1 1 0\n\
    need d 1000 250 0 0 0 0 0 0 0 0 1 1 1 1 1 1 1 1 1 1 1 1 1 1 1 1 1 1 1 1 0 0 0 0 0 0 0 0 0 \
    0 0 0 0 0 0 0 0 0 0 0 0 0\n\
    need a 1800 250 0 0 1 1 1 1 1 1 1 1 1 1 0 0 0 0 0 0 0 0 1 1 1 1 1 1 1 1 0 0 0 0 0 0 0 0 0 \
    0 0 0 0 0 0 0 0 0 0 0 0 0\n";
